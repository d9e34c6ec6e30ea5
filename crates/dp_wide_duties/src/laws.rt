//! Laws over the definitions of this crate.
ghost use Rattle.std.specs.Prelude.{List, codes, ℕ};
ghost use Rattle.dp_wide_duties.specs.Exchange.{exchange_duties};
ghost use Rattle.dp_wide_duties.specs.ExchangePlaces.{CoversLeading, leading_besides};
ghost use Rattle.dp_wide_duties.specs.OptionTexts.{CoversMemberAt, CoversOptionsAt};

/// What meets the duties of an application covers each place to which a real exchange may lead a call besides, by the application's arguments
/// as they expand: that of a device `Local`, what a phone dials to transfer the call, and others. This function does nothing.
pub fn each_leading_place_is_covered()
    ensures { (name : List ℕ) → CoversLeading (exchange_duties name) (leading_besides name) }
{}

/// What meets the duties of `Dial`, `Queue` and `Page` covers whatever their options run on another channel, and what the macro and the
/// subroutine of a `Queue` run, by their arguments as they expand. This function does nothing.
pub fn what_options_run_is_covered()
    ensures dial { CoversOptionsAt 2 (exchange_duties (codes "Dial")) }
    ensures queue { CoversOptionsAt 1 (exchange_duties (codes "Queue")) }
    ensures page { CoversOptionsAt 1 (exchange_duties (codes "Page")) }
    ensures member { CoversMemberAt 6 7 (exchange_duties (codes "Queue")) }
{}
