//! Recorders of a bay: what they are made of, and how.

use crate::samples::ASCII_CFG;
use comtrade_read::read_cfg;
use comtrade_write::Head;
use dfr_channels::{Layout, Memory, Rule, Rules, Setup};
use dfr_recorder::{Limits, Recorder};
use std::alloc::Allocator;

/// A configuration file of one analogue channel, whose scale isn't 1.
pub const ONE: &[u8] =
    b"Bay 1,DFR,1999\n1,1A,0D\n1,IA,A,,A,1.5E-3,-.5,0.0,-32767,32767,1,1,P\n50\n1\n1,1\n01/01/1970,0:0:0\n01/01/1970,0:0:0\nASCII\n1";

/// Those of six channels of each kind, and of one analogue channel beside seventeen contacts.
pub const SIX: &[u8] =
    b"Bay 1,DFR,1999\n12,6A,6D\n1,IA,A,,A,1,0,0,-32767,32767,1,1,P\n2,IB,B,,A,1,0,0,-32767,32767,1,1,P\n3,IC,C,,A,1,0,0,-32767,32767,1,1,P\n4,UA,A,,V,1,0,0,-32767,32767,1,1,S\n5,UB,B,,V,1,0,0,-32767,32767,1,1,S\n6,UC,C,,V,1,0,0,-32767,32767,1,1,S\n1,TRIP,,CB 1,1\n2,TRIP,,CB 1,1\n3,TRIP,,CB 1,1\n4,TRIP,,CB 1,1\n5,TRIP,,CB 1,1\n6,TRIP,,CB 1,1\n50\n1\n1,1\n01/01/1970,0:0:0\n01/01/1970,0:0:0\nASCII\n1";

pub const CONTACTS: &[u8] =
    b"Bay 1,DFR,1999\n18,1A,17D\n1,IA,A,,A,1,0,0,-32767,32767,1,1,P\n1,TRIP,,CB 1,1\n2,TRIP,,CB 1,1\n3,TRIP,,CB 1,1\n4,TRIP,,CB 1,1\n5,TRIP,,CB 1,1\n6,TRIP,,CB 1,1\n7,TRIP,,CB 1,1\n8,TRIP,,CB 1,1\n9,TRIP,,CB 1,1\n10,TRIP,,CB 1,1\n11,TRIP,,CB 1,1\n12,TRIP,,CB 1,1\n13,TRIP,,CB 1,1\n14,TRIP,,CB 1,1\n15,TRIP,,CB 1,1\n16,TRIP,,CB 1,1\n17,TRIP,,CB 1,1\n50\n1\n1,1\n01/01/1970,0:0:0\n01/01/1970,0:0:0\nASCII\n1";

/// Fires from 100 on.
pub const OVER_100: Rule = Rule::Level {
    channel: 0,
    over: true,
    threshold: 100,
};

/// Its channels, scans a second, the instant of scan 0, limits, whether records share scans, and rules.
#[derive(Clone, Copy)]
pub struct Bay<'a> {
    pub channels: &'a [u8],
    pub rate: u32,
    pub start: i64,
    pub limits: (u32, u32, u32, u32),
    pub is_shared: bool,
    pub rules: &'a [Rule],
}

/// 1,000 scans a second from 1970 on, two scans before a trigger and two after it, of six at most, and a shelf of one.
pub const BAY: Bay = Bay {
    channels: ONE,
    rate: 1000,
    start: 0,
    limits: (2, 2, 6, 1),
    is_shared: true,
    rules: &[],
};

/// One channel of each kind.
pub const BOTH: Bay = Bay {
    channels: ASCII_CFG,
    ..BAY
};

/// A shelf of two.
pub const TWO: Bay = Bay {
    limits: (2, 2, 6, 2),
    ..BAY
};

/// Two rows, from the trigger on.
pub const SHORT: Bay = Bay {
    limits: (0, 1, 2, 1),
    ..BAY
};

/// 4,800 scans a second, whose stamps are no whole numbers of microseconds apart.
pub const FAST: Bay = Bay {
    rate: 4800,
    limits: (0, 3, 4, 1),
    ..BAY
};

/// So many scans a second of these channels, from this instant on.
fn setup_of<A: Allocator>(head: Head<A>, rate: u32, start: i64) -> Setup<A> {
    Setup {
        station: head.station,
        device: head.device,
        analog: head.analog,
        status: head.status,
        line_freq: head.line_freq,
        rate,
        start,
    }
}

pub fn setup<A: Allocator + Copy>(alloc: A, bay: Bay) -> Option<Setup<A>> {
    match read_cfg(alloc, bay.channels) {
        Ok(head) => Some(setup_of(head, bay.rate, bay.start)),
        Err(_) => None,
    }
}

pub fn layout<A: Allocator + Copy>(alloc: A, bay: Bay) -> Option<Layout<A>> {
    match setup(alloc, bay) {
        Some(setup) => Layout::new(setup).ok(),
        None => None,
    }
}

pub fn rules_in<A: Allocator + Copy>(
    layout: &Layout<A>,
    list: &[Rule],
    alloc: A,
) -> Option<Rules<A>> {
    match Vec::from_slice(alloc, list) {
        Ok(list) => Rules::new(layout, list).ok(),
        Err(_) => None,
    }
}

pub fn limits<A: Allocator>(layout: &Layout<A>, bay: Bay) -> Option<Limits> {
    let (pre, post, longest, shelf) = bay.limits;
    match Limits::new(layout, pre, post, longest, shelf) {
        Ok(limits) => Some(if bay.is_shared {
            limits
        } else {
            limits.unshared()
        }),
        Err(_) => None,
    }
}

pub type Made<A> = Result<Recorder<A>, (Memory, Layout<A>, Rules<A>)>;

/// None where limits or rules don't fit.
pub fn made<A: Allocator + Copy>(
    alloc: A,
    layout: Layout<A>,
    limits: Limits,
    rules: Rules<A>,
) -> Option<Made<A>> {
    if limits.fits(&layout) && rules.fits(&layout) {
        return Some(Recorder::new(alloc, layout, limits, rules));
    }
    drop(layout);
    drop(rules);
    None
}

fn recorder_in<A: Allocator>(made: Option<Made<A>>) -> Option<Recorder<A>> {
    match made {
        Some(made) => made.ok(),
        None => None,
    }
}

pub fn recorder<A: Allocator + Copy>(alloc: A, bay: Bay) -> Option<Recorder<A>> {
    let layout = layout(alloc, bay)?;
    match (limits(&layout, bay), rules_in(&layout, bay.rules, alloc)) {
        (Some(limits), Some(rules)) => recorder_in(made(alloc, layout, limits, rules)),
        (_, rules) => {
            drop(layout);
            drop(rules);
            None
        }
    }
}
