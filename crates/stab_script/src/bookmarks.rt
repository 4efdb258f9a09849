//! The bits of a session that changes are counted from.
ghost use Rattle.std.specs.Prelude.{◌≡◌, IfOk, IfErr};
ghost use Rattle.stab_io.specs.Refusals.{whole};
ghost use Rattle.stab_io.specs.declared.refusal.Refusal.TheVariants.{OutOfMemory};
ghost use Rattle.stab_report.specs.Coins.{shot_bits_of};
ghost use Rattle.stab_script.specs.Changes.{bookmark_shown};
ghost use Rattle.stab_script.specs.Scripts.{first_bookmark as first_bookmark_of};
ghost use Rattle.stab_script.specs.inner.SessionAnswers.{session_run};

use crate::changes::BookmarkedBits;
use stab_io::Fault;
use stab_run::Coins;
use stab_session::Session;
use std::alloc::Global;

/// A bookmark at the bits of a session.
pub(crate) fn bookmark_at<C: Coins>(
    alloc: Global,
    session: &Session<C>,
) -> Result<BookmarkedBits, Fault>
    ensures value { IfOk result (λ m. bookmark_shown m ≡ shot_bits_of (session_run C.sequence session.now)) }
    ensures err { IfErr result (λ f. f ≡ whole OutOfMemory) }
{
    let records = session.records();
    let detectors = session.detectors();
    let bookmark = BookmarkedBits::of(alloc, records, detectors, session.observables())?;
    Ok(bookmark)
}

/// The bookmark before a script, which only a counted script has.
pub(crate) fn first_bookmark<C: Coins>(
    alloc: Global,
    counted: bool,
    session: &Session<C>,
) -> Result<BookmarkedBits, Fault>
    ensures value { IfOk result (λ m. bookmark_shown m ≡ first_bookmark_of counted (session_run C.sequence session.now)) }
    ensures err { IfErr result (λ f. f ≡ whole OutOfMemory) }
{
    if counted {
        return bookmark_at(alloc, session);
    }
    Ok(BookmarkedBits::none(alloc))
}
