//! Measurements as values. What is wanted was computed by Python: rms values by `fractions` and
//! `math.isqrt`, the others by hand.

use comtrade_analysis::{
    CyclesAround, Event, Extreme, Extremes, Factors, MeanFault, Sequence, Survey, Window,
    cycles_around, cycles_within, event_counts_of, first_event_of, first_events_of, gaps_of,
    mean_square_over, outages_of, sequences_in, surveys_of, value_extremes_of,
};
use comtrade_format::{Cycle, Row};
use comtrade_read::read_cfg;
use comtrade_values::{Decimal, Items};
use dfr_channels::Reading;
use std::alloc::Global;

/// The first cycle of IA of a record at 4,800 rows a second and 50 Hz; its a is 0.134298.
const IA: [i32; 96] = [
    3495, 3471, 3432, 3379, 3311, 3229, 3133, 3023, 2901, 2766, 2619, 2462, 2293, 2115, 1928, 1732,
    1529, 1320, 1105, 885, 661, 435, 206, -23, -252, -480, -706, -929, -1148, -1362, -1570, -1772,
    -1966, -2151, -2328, -2494, -2650, -2794, -2926, -3046, -3153, -3246, -3326, -3391, -3441,
    -3477, -3498, -3504, -3495, -3471, -3432, -3379, -3311, -3229, -3133, -3023, -2901, -2766,
    -2619, -2462, -2293, -2115, -1928, -1732, -1529, -1320, -1105, -885, -661, -435, -206, 23, 252,
    480, 706, 929, 1148, 1362, 1570, 1772, 1966, 2151, 2328, 2494, 2650, 2794, 2926, 3046, 3153,
    3246, 3326, 3391, 3441, 3477, 3498, 3504,
];

/// A number of units and places.
type Number = (i128, u8);

/// What a window's rms value is to nine digits, if there is one.
type Rms = Option<Result<Option<Number>, MeanFault>>;

/// Rows of one channel.
fn rows_of(alloc: Global, readings: &[Reading]) -> Option<Vec<Row>> {
    let mut rows = Vec::new(alloc);
    for reading in readings {
        let values = Vec::from_slice(alloc, &[*reading]).ok()?;
        rows.push(Row {
            number: 1,
            stamp: None,
            values: Items::of(values),
            bits: Items::of(Vec::new(alloc)),
        })
        .ok()?;
    }
    Some(rows)
}

fn factors((a, a_places): Number, (b, b_places): Number) -> Option<Factors> {
    Some(Factors {
        a: Decimal::new(a, a_places)?,
        b: Decimal::new(b, b_places)?,
    })
}

/// The rms value of all these readings.
fn rms(alloc: Global, readings: &[Reading], a: Number, b: Number) -> Rms {
    let rows = rows_of(alloc, readings)?;
    let window = Window {
        first: 0,
        rows: rows.len(),
    };
    let mean = match mean_square_over(&rows, 0, &factors(a, b)?, window) {
        Ok(mean) => mean,
        Err(fault) => return Some(Err(fault)),
    };
    Some(Ok(match mean.root(9) {
        Some(root) => Some((root.units(), root.places())),
        None => None,
    }))
}

/// The rms value of these samples.
fn rms_of(alloc: Global, samples: &[i32], a: Number, b: Number) -> Rms {
    let mut readings = Vec::new(alloc);
    for sample in samples {
        readings.push(Reading::Value(*sample)).ok()?;
    }
    rms(alloc, &readings, a, b)
}

#[test]
fn rms_values(rt: HostRuntime) {
    let alloc = rt.alloc();
    let none: Number = (0, 0);
    let found = rms_of(alloc, &[3, -4], (1, 2), none);
    assert_eq!(rt; found, Some(Ok(Some((353_553_390, 10)))));
    let found = rms_of(alloc, &[1, 2, 3], (2, 0), (1, 0));
    assert_eq!(rt; found, Some(Ok(Some((525_991_127, 8)))));
    assert_eq!(rt;
        rms_of(alloc, &[0, 0], (1, 0), none),
        Some(Ok(Some((0, 0))))
    );
    let found = rms_of(
        alloc,
        &[20_000, 20_000],
        (305_185_094_759_971_922, 21),
        none,
    );
    assert_eq!(rt; found, Some(Ok(Some((610_370_189, 8)))));
    let found = rms_of(alloc, &IA, (134_298, 6), none);
    assert_eq!(rt; found, Some(Ok(Some((332_770_433, 6)))));
}

#[test]
fn least_and_greatest_rms_values(rt: HostRuntime) {
    let alloc = rt.alloc();
    let none: Number = (0, 0);
    let found = rms_of(alloc, &[1], (1, 72), none);
    assert_eq!(rt; found, Some(Ok(Some((100_000_000, 80)))));
    assert_eq!(rt; rms_of(alloc, &[1], (1, 73), none), Some(Ok(None)));
    let most = 18_446_744_073_709_551_615;
    assert_eq!(rt;
        rms_of(alloc, &[1], (most, 0), none),
        Some(Ok(Some((most, 0))))
    );
    assert_eq!(rt; rms_of(alloc, &[1], (most + 1, 0), none), Some(Ok(None)));
}

#[test]
fn no_mean_square(rt: HostRuntime) {
    let alloc = rt.alloc();
    let lost = [Reading::Value(1), Reading::Missing];
    assert_eq!(rt;
        rms(alloc, &lost, (1, 0), (0, 0)),
        Some(Err(MeanFault::Missing))
    );
    assert_eq!(rt;
        rms(alloc, &[], (1, 0), (0, 0)),
        Some(Err(MeanFault::Missing))
    );
    let large = 10_000_000_000_000_000_000_000_000;
    let found = rms_of(alloc, &[30_000], (large, 0), (0, 0));
    assert_eq!(rt; found, Some(Err(MeanFault::Digits)));
}

/// Names of phases as relays write them: by the phase field, by ids, in both orders, twice.
const PHASES: &[u8] =
    b"S,D,1999\n16,16A,0D\n1,x,AN,Bus,kV,1,0,0,-9,9,1,1,P\n2,y,BN,Bus,kV,1,0,0,-9,9,1,1,P\n3,z,CN,Bus,kV,1,0,0,-9,9,1,1,P\n4,IN,,Bay,A,1,0,0,-9,9,1,1,P\n5,IL1,,Bay,A,1,0,0,-9,9,1,1,P\n6,IL2,,Bay,A,1,0,0,-9,9,1,1,P\n7,I3,,Bay,A,1,0,0,-9,9,1,1,P\n8,A,A,Two,A,1,0,0,-9,9,1,1,P\n9,B,B,Two,A,1,0,0,-9,9,1,1,P\n10,C,C,Two,A,1,0,0,-9,9,1,1,P\n11,A,R,Two,A,1,0,0,-9,9,1,1,P\n12,B,S,Two,A,1,0,0,-9,9,1,1,P\n13,C,T,Two,A,1,0,0,-9,9,1,1,P\n14,L1-E,,Bay,V,1,0,0,-9,9,1,1,P\n15,L2-E,,Bay,V,1,0,0,-9,9,1,1,P\n16,L3-E,,Bay,V,1,0,0,-9,9,1,1,S\n50\n1\n1,1\n01/01/1970,0:0:0\n01/01/1970,0:0:0\nASCII\n1";

fn sequences(alloc: Global) -> Option<Vec<Sequence>> {
    let head = read_cfg(alloc, PHASES).ok()?;
    sequences_in(alloc, head.analog.items()).ok()
}

/// Phases at these places, and a neutral where there is one.
fn sequence(a: usize, b: usize, c: usize, neutral: Option<usize>) -> Sequence {
    Sequence { a, b, c, neutral }
}

#[test]
fn phases_of_one_unit(rt: HostRuntime) {
    let wanted = [
        sequence(0, 1, 2, None),
        sequence(4, 5, 6, Some(3)),
        sequence(7, 8, 9, None),
        sequence(10, 11, 12, None),
    ];
    let found = sequences(rt.alloc());
    assert!(rt; found.is_some());
    if let Some(found) = found {
        assert_eq!(rt; found.as_slice(), wanted.as_slice());
    }
}

#[test]
fn cycles_of_19_rows_and_a_fifth(rt: HostRuntime) {
    let cycle = Cycle {
        cycles: 5,
        rows: 96,
    };
    let found = cycles_around(cycle, 20, 39);
    let wanted = CyclesAround {
        before: Some(Window { first: 1, rows: 19 }),
        after: Some(Window {
            first: 20,
            rows: 19,
        }),
    };
    assert_eq!(rt; found, wanted);
    let none = CyclesAround {
        before: None,
        after: None,
    };
    assert_eq!(rt; cycles_around(cycle, 18, 36), none);
    let window = Window {
        first: 20,
        rows: 19,
    };
    assert!(rt; window.contains(20) && window.contains(38));
    assert!(rt; !window.contains(19) && !window.contains(39));
    assert_eq!(rt; cycles_within(cycle, 18), 0);
    assert_eq!(rt; cycles_within(cycle, 19), 1);
    assert_eq!(rt; cycles_within(cycle, 96), 5);
}

/// Rows of one contact.
fn contact_rows(alloc: Global, bits: &[bool]) -> Option<Vec<Row>> {
    let mut rows = Vec::new(alloc);
    for bit in bits {
        let bits = Vec::from_slice(alloc, &[*bit]).ok()?;
        rows.push(Row {
            number: 1,
            stamp: None,
            values: Items::of(Vec::new(alloc)),
            bits: Items::of(bits),
        })
        .ok()?;
    }
    Some(rows)
}

fn first_event(alloc: Global, bits: &[bool]) -> Option<Event> {
    let rows = contact_rows(alloc, bits)?;
    first_event_of(&rows, 0)
}

#[test]
fn first_events(rt: HostRuntime) {
    let wanted = Event {
        row: 2,
        channel: 0,
        closed: false,
    };
    let found = first_event(rt.alloc(), &[true, true, false, true]);
    assert_eq!(rt; found, Some(wanted));
    assert_eq!(rt; first_event(rt.alloc(), &[true, true]), None);
}

fn value_extremes(alloc: Global, a: Number) -> Option<Extremes> {
    let readings = [
        Reading::Missing,
        Reading::Value(-5),
        Reading::Value(7),
        Reading::Value(-5),
        Reading::Value(7),
    ];
    let rows = rows_of(alloc, &readings)?;
    value_extremes_of(&rows, 0, &factors(a, (1, 0))?)
}

#[test]
fn extremes_by_value(rt: HostRuntime) {
    let low = Extreme { sample: -5, row: 1 };
    let high = Extreme { sample: 7, row: 2 };
    let rising = Extremes {
        least: low,
        greatest: high,
    };
    let falling = Extremes {
        least: high,
        greatest: low,
    };
    assert_eq!(rt; value_extremes(rt.alloc(), (5, 1)), Some(rising));
    assert_eq!(rt; value_extremes(rt.alloc(), (-5, 1)), Some(falling));
}

/// The readings of a channel with gaps at both ends and in the middle.
const HOLES: [Reading; 8] = [
    Reading::Missing,
    Reading::Value(3),
    Reading::Missing,
    Reading::Missing,
    Reading::Value(-2),
    Reading::Value(3),
    Reading::Missing,
    Reading::Missing,
];

fn survey(alloc: Global) -> Option<Survey> {
    let rows = rows_of(alloc, &HOLES)?;
    let surveys = surveys_of(alloc, &rows, 1).ok()?;
    surveys.first().copied()
}

#[test]
fn a_survey(rt: HostRuntime) {
    let wanted = Survey {
        extremes: Some(Extremes {
            least: Extreme { sample: -2, row: 4 },
            greatest: Extreme { sample: 3, row: 1 },
        }),
        missing: 5,
    };
    assert_eq!(rt; survey(rt.alloc()), Some(wanted));
}

/// The first rows and the numbers of rows of gaps, and those of outages.
type Runs = Vec<(usize, usize)>;

fn gaps(alloc: Global) -> Option<Runs> {
    let rows = rows_of(alloc, &HOLES)?;
    let mut runs = Vec::new(alloc);
    for gap in gaps_of(alloc, &rows, 0).ok()?.iter() {
        runs.push((gap.first, gap.rows)).ok()?;
    }
    Some(runs)
}

fn outages(alloc: Global) -> Option<Runs> {
    let rows = rows_of(alloc, &HOLES)?;
    let mut runs = Vec::new(alloc);
    for outage in outages_of(alloc, &rows).ok()?.iter() {
        runs.push((outage.first, outage.rows)).ok()?;
    }
    Some(runs)
}

#[test]
fn runs_of_missing_readings(rt: HostRuntime) {
    let wanted = [(0, 1), (2, 2), (6, 2)];
    let found = gaps(rt.alloc());
    assert!(rt; found.is_some());
    if let Some(found) = found {
        assert_eq!(rt; found.as_slice(), wanted.as_slice());
    }
    let found = outages(rt.alloc());
    assert!(rt; found.is_some());
    if let Some(found) = found {
        assert_eq!(rt; found.as_slice(), wanted.as_slice());
    }
}

/// How often a contact changes, and the last of its first events, at most so many.
fn last_of_first(alloc: Global, bits: &[bool], most: usize) -> Option<(usize, Event)> {
    let rows = contact_rows(alloc, bits)?;
    let counts = event_counts_of(alloc, &rows, 1).ok()?;
    let events = first_events_of(alloc, &rows, 0, most).ok()?;
    Some((counts.first().copied()?, events.last().copied()?))
}

#[test]
fn events_of_one_contact(rt: HostRuntime) {
    let bits = [false, true, true, false, true];
    let second = Event {
        row: 3,
        channel: 0,
        closed: false,
    };
    assert_eq!(rt; last_of_first(rt.alloc(), &bits, 2), Some((3, second)));
    let third = Event {
        row: 4,
        channel: 0,
        closed: true,
    };
    assert_eq!(rt; last_of_first(rt.alloc(), &bits, 9), Some((3, third)));
}
