//! The lines of orders.
ghost use Rattle.std.specs.Prelude.{◌≡◌};
ghost use Rattle.cue_evening.specs.LinesOf as lines;

use cue_engine::{Order, OrderKind};
use cue_log_lines::{Line, Ordered, Try};
use cue_show::CueNo;

// The word that a line has for an order.
fn kind_of(kind: OrderKind) -> cue_log_lines::OrderKind
    ensures { result ≡ lines.kind_of kind }
{
    match kind {
        OrderKind::Standby => cue_log_lines::OrderKind::Standby,
        OrderKind::Go => cue_log_lines::OrderKind::Go,
        OrderKind::Cancel => cue_log_lines::OrderKind::Cancel,
    }
}

/// The line of an order, with the cue of its attempt if that is known.
pub fn order_line<'a>(order: &Order, cue: Option<CueNo>, is_sent: bool) -> Line<'a>
    ensures { result ≡ lines.order_line order.now cue is_sent }
{
    Line::Ordered(Ordered {
        kind: kind_of(order.kind),
        attempt: Try {
            number: order.attempt,
            cue,
        },
        device: order.device,
        port: order.port,
        is_sent,
    })
}
