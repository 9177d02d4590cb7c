//! The atomic types, each written after what stands already.

ghost use Rattle.std.specs.Prelude.{◌≡◌, ◌<◌, ◌≤◌, ◌++◌, map, length, replicate, OnOk};
ghost use Rattle.std.specs.List.{flat_map, AllByRecursion};
ghost use Rattle.cue_osc.specs.Argument.{arg_view};
ghost use Rattle.cue_osc.specs.Spelling.{osc_string, osc_blob, argument, tag, tags, message_text};
ghost use Rattle.cue_osc.specs.Writing.{IsArgInRange};
ghost use Rattle.cue_osc.specs.declared.limits.TheConstants.{MAX_LEN};

use crate::packet::Arg;
use std::alloc::AllocError;

/// At most four zeros.
fn put_zeros(out: &mut Vec<u8>, count: usize) -> Result<(), AllocError>
    requires { count ≤ 4 }
    ensures { OnOk result (out.new.items ≡ out.old.items ++ replicate count 0) }
{
    for _ in 0..count {
        out.push(0)?;
    }
    Ok(())
}

fn put_string(out: &mut Vec<u8>, text: &[u8]) -> Result<(), AllocError>
    ensures { OnOk result (out.new.items ≡ out.old.items ++ osc_string text.now) }
{
    out.extend_from_slice(text)?;
    put_zeros(out, 4 - text.len() % 4)
}

fn put_blob(out: &mut Vec<u8>, content: &[u8]) -> Result<(), AllocError>
    requires { length content.now < 4097 }
    ensures { OnOk result (out.new.items ≡ out.old.items ++ osc_blob content.now) }
{
    let len = content.len();
    out.extend_from_slice(&(len as u32).to_be_bytes())?;
    out.extend_from_slice(content)?;
    put_zeros(out, (4 - len % 4) % 4)
}

fn put_arg(out: &mut Vec<u8>, arg: &Arg<'_>) -> Result<(), AllocError>
    requires { length (argument (arg_view arg.now)) ≤ MAX_LEN }
    ensures ok { OnOk result (out.new.items ≡ out.old.items ++ argument (arg_view arg.now)) }
    ensures in_range { IsArgInRange (arg_view arg.now) }
{
    match arg {
        Arg::Int(number) => out.extend_from_slice(&number.cast_unsigned().to_be_bytes()),
        Arg::Text(text) => put_string(out, text),
        Arg::Blob(content) => put_blob(out, content),
    }
}

fn tag_of(arg: &Arg<'_>) -> u8
    ensures { result ≡ tag (arg_view arg.now) }
{
    match arg {
        Arg::Int(_) => b'i',
        Arg::Text(_) => b's',
        Arg::Blob(_) => b'b',
    }
}

/// The type tag string.
fn put_tags(out: &mut Vec<u8>, args: &[Arg<'_>]) -> Result<(), AllocError>
    ensures { OnOk result (out.new.items ≡ out.old.items ++ osc_string (tags (map arg_view args.now))) }
{
    out.push(b',')?;
    for arg in args {
        out.push(tag_of(arg))?;
    }
    put_zeros(out, 4 - (args.len() + 1) % 4)
}

fn put_args(out: &mut Vec<u8>, args: &[Arg<'_>]) -> Result<(), AllocError>
    requires { length (flat_map argument (map arg_view args.now)) ≤ MAX_LEN }
    ensures ok { OnOk result (out.new.items ≡ out.old.items ++ flat_map argument (map arg_view args.now)) }
    ensures in_range { OnOk result (AllByRecursion IsArgInRange (map arg_view args.now)) }
{
    for arg in args {
        put_arg(out, arg)?;
    }
    Ok(())
}

/// A message, with its type tag string.
pub(crate) fn put_message(
    out: &mut Vec<u8>,
    address: &[u8],
    args: &[Arg<'_>],
) -> Result<(), AllocError>
    requires { length (message_text address.now (map arg_view args.now)) ≤ MAX_LEN }
    ensures ok { OnOk result (out.new.items ≡ out.old.items ++ message_text address.now (map arg_view args.now)) }
    ensures in_range { OnOk result (AllByRecursion IsArgInRange (map arg_view args.now)) }
{
    put_string(out, address)?;
    put_tags(out, args)?;
    put_args(out, args)
}
