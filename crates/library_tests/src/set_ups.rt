//! Set-up files with lines of detectors: levels in samples, by hand.

use dfr_detect::{Condition, Settings};
use dfr_setup::{DetectorFault, SetupRefusal, prepared_of};
use std::alloc::Global;

const SETUP: &[u8] = b"station S\ndevice D\nanalog UA,A,,kV,0.01,0,0,-32767,32767,1,1,P
status CB,,,0\nfreq 50\nrate 1000\nlimits 1,1,3,1
detect SAG rms under 53.975 of UA for 3 reset 57.155\n";

/// The settings of a set-up's first detector, and its number of status channels.
fn first_settings(alloc: Global, setup: &[u8]) -> Option<(Settings, usize)> {
    let Ok(prepared) = prepared_of(alloc, setup, 0) else {
        return None;
    };
    let plan = prepared.plans.first()?;
    let channels = prepared.recorder.layout().status().len();
    Some((plan.settings, channels))
}

/// 53.975 kV are 5,397.5 samples of 0.01 kV, and a level to fall below is rounded down.
#[test]
fn sag(rt: HostRuntime) {
    let sag = Settings {
        condition: Condition::RmsUnder,
        scans: 20,
        level: 5397,
        reset: 5715,
        row: 3,
    };
    assert!(rt; first_settings(rt.alloc(), SETUP) == Some((sag, 2)));
}

/// 0.85 of 63.5 kV are 53.975 kV, and 0.9 of it 57.15 kV: the samples are those of `sag`.
#[test]
fn parts(rt: HostRuntime) {
    let setup = b"station S\ndevice D\nanalog UA,A,,kV,0.01,0,0,-32767,32767,1,1,P
status CB,,,0\nfreq 50\nrate 1000\nlimits 1,1,3,1
detect SAG rms under 0.85 of 63.5 kV of UA for 3 reset 0.9 of 63.5 kV\n";
    let parts = first_settings(rt.alloc(), setup);
    assert!(rt; parts.is_some() && parts == first_settings(rt.alloc(), SETUP));
}

/// A rated value in another unit than the channel's.
#[test]
fn other_unit(rt: HostRuntime) {
    let setup = b"station S\ndevice D\nanalog UA,A,,kV,0.01,0,0,-32767,32767,1,1,P
freq 50\nrate 1000\nlimits 1,1,3,1\ndetect SAG rms under 0.85 of 63500 V of UA\n";
    let refusal = match prepared_of(rt.alloc(), setup, 0) {
        Ok(_) => None,
        Err(refusal) => Some(refusal),
    };
    assert!(rt; refusal == Some(SetupRefusal::Detector(7, DetectorFault::Unit)));
}

#[test]
fn unknown_kind(rt: HostRuntime) {
    let setup = b"station S\ndevice D\nanalog UA,A,,kV,0.01,0,0,-32767,32767,1,1,P
freq 50\nrate 1000\nlimits 1,1,3,1\ndetect SAG peak 1 of UA\n";
    let refusal = match prepared_of(rt.alloc(), setup, 0) {
        Ok(_) => None,
        Err(refusal) => Some(refusal),
    };
    assert!(rt; refusal == Some(SetupRefusal::Detector(7, DetectorFault::Words)));
}
