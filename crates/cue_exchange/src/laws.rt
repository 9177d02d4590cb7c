//! Laws of the exchange, each the contract of a function that does nothing.
ghost use Rattle.std.specs.Prelude.{◌≡◌};
ghost use Rattle.cue_exchange.specs.declared.limits.TheConstants.{MAX_NUMBER, MAX_LIVE};

/// The limits, as numbers: at most 8 attempts are live at once, and the last number of an attempt is 2,147,483,647.
pub fn limits()
    ensures live { MAX_LIVE ≡ 8 }
    ensures numbers { MAX_NUMBER ≡ 2147483647 }
{}
