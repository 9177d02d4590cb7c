//! The lines that a relay prints.
ghost use Rattle.std.specs.Prelude.{◌≡◌, ◌++◌, OnOk, string_bytes};
ghost use Rattle.cue_relay_machine.specs.Steps.{news_given, report_given};
ghost use Rattle.cue_relay_machine.specs.Texts.{device_line, dropped_line, dropped_words, news_words};

use crate::known::Known;
use crate::places::machine_address;
use cue_machine::{Output, Outputs};
use cue_relay::News;
use jiff::Timestamp;
use std::alloc::{AllocError, Global};
use std::fmt::Write;

// What there is to say of a device, in words.
fn news_words(news: News) -> &'static str
    ensures { result.now ≡ news_words news }
{
    match news {
        News::FirstHeard => "heard",
        News::HeardAgain => "heard again",
        News::Silent => "silent: it was sent an order, and has answered nothing for five seconds",
    }
}

/// The second of this time, as the log of `serve` has it, and a space; nothing after the year 9999.
pub fn date_of(alloc: Global, now: u64) -> Result<String, AllocError> {
    let second = i64::try_from(now / 1000).unwrap_or(i64::MAX);
    match Timestamp::from_second(second) {
        Ok(time) => format!(in alloc; "{time} "),
        Err(_) => Ok(String::new(alloc)),
    }
}

// A line on a device.
fn put_news(text: &mut String, date: &str, known: Known, news: News) -> Result<(), AllocError>
    ensures { OnOk result (string_bytes text.new ≡ string_bytes text.old ++ device_line date.now known news) }
{
    let device = known.route.device.number();
    let address = machine_address(known.route.address);
    let words = news_words(news);
    write!(text, "{date}device {device} at {address}: {words}\n")
}

/// A line on a device, if there is something to say of it.
pub fn push_news(
    alloc: Global,
    out: &mut Outputs,
    date: &str,
    known: Known,
    news: Option<News>,
) -> Result<(), AllocError>
    ensures { OnOk result (out.new ≡ out.old ++ news_given date.now known news) }
{
    let Some(news) = news else {
        return Ok(());
    };
    let mut text = String::new(alloc);
    put_news(&mut text, date, known, news)?;
    out.push(Output::Print, text.as_bytes())
}

// What the datagrams are that are dropped, in words.
fn dropped_words() -> &'static str
    ensures { result.now ≡ dropped_words }
{
    " datagrams dropped: from nobody whom the file names, no answer of the device that sent it, \
no order, or more than 100 of one device within a second\n"
}

// A line on what was dropped.
fn put_report(text: &mut String, date: &str, count: u64) -> Result<(), AllocError>
    ensures { OnOk result (string_bytes text.new ≡ string_bytes text.old ++ dropped_line date.now count) }
{
    let words = dropped_words();
    write!(text, "{date}{count}{words}")
}

/// A line on what was dropped, if it is to be said.
pub fn push_report(
    alloc: Global,
    out: &mut Outputs,
    date: &str,
    report: Option<u64>,
) -> Result<(), AllocError>
    ensures { OnOk result (out.new ≡ out.old ++ report_given date.now report) }
{
    let Some(count) = report else {
        return Ok(());
    };
    let mut text = String::new(alloc);
    put_report(&mut text, date, count)?;
    out.push(Output::Print, text.as_bytes())
}
