//! Where the clock was set, and where scans are missing.

ghost use Rattle.std.specs.Prelude.{◌≡◌, ◌≤◌, ◌^◌};
ghost use Rattle.dfr_clock.specs.Following as spec;

use crate::course::since;
use crate::follower::Mode;
use crate::reading::Jump;
use crate::settings::Settings;

/// By how much the clock was set if it went on by `clock`, and the monotonic clock by `mono`.
pub(crate) fn jump_between(step: u32, clock: u128, mono: u128) -> Option<Jump>
    requires clock { clock ≤ 2 ^ 90 }
    requires mono { mono ≤ 2 ^ 90 }
    ensures { result ≡ spec.jump_between step clock mono }
{
    let step = u128::from(step);
    if mono + step < clock {
        Some(Jump::Forward(clock - mono))
    } else if clock + step < mono {
        Some(Jump::Back(mono - clock))
    } else {
        None
    }
}

/// How many scans are missing, if the newest scan was due at an instant and the clock shows another:
/// those of the time between, if that is more than the limit.
pub(crate) fn missing_between(settings: &Settings, limit: u128, due: u128, clock: u128) -> u128
    requires limit { limit ≤ 2 ^ 90 }
    requires due { due ≤ 2 ^ 90 }
    requires clock { clock ≤ 2 ^ 90 }
    requires rate { settings.now.rate ≤ 1_000_000 }
    ensures { result ≡ spec.missing_between settings.now limit due clock }
{
    if due + limit < clock {
        (clock - due) * u128::from(settings.rate) / 1_000_000
    } else {
        0
    }
}

/// How many lost scans stand for missing ones.
pub(crate) fn lost_for(settings: &Settings, missing: u128) -> u32
    ensures { result ≡ spec.lost_for settings.now missing }
{
    if missing < u128::from(settings.most) {
        missing as u32
    } else {
        settings.most
    }
}

/// How many lost scans stand for what is missing before a scan that was due at an instant, and has
/// another as the converter tells. It is so long after the scan whose instant was told last.
pub(crate) fn told_lost(
    settings: &Settings,
    mode: Mode,
    since: u128,
    due: u128,
    instant: u128,
) -> u32
    requires since { since ≤ 2 ^ 86 }
    requires due { due ≤ 2 ^ 90 }
    requires instant { instant ≤ 2 ^ 64 }
    requires rate { settings.now.rate ≤ 1_000_000 }
    ensures { result ≡ spec.told_lost settings.now mode since due instant }
{
    match mode {
        Mode::Settling | Mode::Following => 0,
        Mode::Told => {
            let limit = u128::from(settings.apart) + since / 1_000;
            lost_for(settings, missing_between(settings, limit, due, instant))
        }
    }
}

/// By how much the clock was set if a scan that was due at an instant has another as the converter
/// tells.
pub(crate) fn told_jump(settings: &Settings, mode: Mode, due: u128, instant: u128) -> Option<Jump>
    requires due { due ≤ 2 ^ 90 }
    requires instant { instant ≤ 2 ^ 64 }
    ensures { result ≡ spec.told_jump settings.now mode due instant }
{
    match mode {
        Mode::Settling | Mode::Following => jump_between(settings.step, instant, due),
        Mode::Told => jump_between(settings.step, instant.min(due), due),
    }
}

/// The instant of a place by a clock that showed this when the scan at another place came.
pub(crate) fn by_clock(place: u128, newest: u128, wall: u64) -> u128
    ensures value { result ≡ spec.by_clock place newest wall }
    ensures bound { result ≤ 2 ^ 64 }
{
    since(since(place, newest), u128::from(wall))
}
