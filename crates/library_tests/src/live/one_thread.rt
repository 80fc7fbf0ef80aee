//! The calls of one thread, from opening to end.

use crate::live::acts::Act;
use crate::live::play::{Play, is_played};
use dfr_live::End;
use dfr_recorder::{Hit, TriggerFault};

const NO_SCAN: Act = Act::Trigger(Err(TriggerFault::NoScan));

const SHELF_FULL: Act = Act::Trigger(Err(TriggerFault::ShelfFull));

const COVERED: Act = Act::Trigger(Err(TriggerFault::Covered));

const OPENS: Act = Act::Trigger(Ok(Hit::Opened(1)));

const OPENS_AGAIN: Act = Act::Trigger(Ok(Hit::Opened(2)));

/// Four scans, of which a pump finds no more, a trigger, and two scans that fill its record.
const RECORDS: &[Act] = &[
    Act::Offer(&[10, 11, 12, 13]),
    Act::Pump(8, 4, End::Empty),
    OPENS,
    Act::Offer(&[14, 15]),
    Act::Pump(8, 2, End::Empty),
];

/// Those, by a lane of eight onto a shelf of one.
const RECORD: Play = Play {
    lane: 8,
    shelf: 1,
    is_shared: true,
    acts: &[&[NO_SCAN], RECORDS, &[Act::Take(1, 5), Act::TakeNone]],
    entries: &[
        (0, NO_SCAN),
        (4, OPENS),
        (6, Act::Take(1, 5)),
        (6, Act::TakeNone),
    ],
    left: &[],
    scans: 6,
};

/// A trigger before any scan is refused and leaves an entry; a record is taken; then there is none. And on a full shelf of one the
/// trigger is refused with an entry, and opens after the take.
#[test]
fn a_record(rt: HostRuntime) {
    assert!(rt; is_played(&rt, rt.alloc(), RECORD));
    let full = Play {
        acts: &[RECORDS, &[SHELF_FULL, Act::Take(1, 5), OPENS_AGAIN]],
        entries: &[
            (4, OPENS),
            (6, SHELF_FULL),
            (6, Act::Take(1, 5)),
            (6, OPENS_AGAIN),
        ],
        ..RECORD
    };
    assert!(rt; is_played(&rt, rt.alloc(), full));
}

const OPENS_AT_THE_NEXT: &[Act] = &[Act::Offer(&[16]), Act::Pump(8, 1, End::Empty), OPENS_AGAIN];

/// Records that share no scan. A trigger at the last scan of the first record is refused with an entry; one at the next scan opens
/// a record that begins there.
const UNSHARED: Play = Play {
    shelf: 2,
    is_shared: false,
    acts: &[
        RECORDS,
        &[COVERED],
        OPENS_AT_THE_NEXT,
        &[
            Act::Offer(&[17, 18]),
            Act::Pump(8, 2, End::Empty),
            Act::Take(1, 5),
            Act::Take(6, 8),
        ],
    ],
    entries: &[
        (4, OPENS),
        (6, COVERED),
        (7, OPENS_AGAIN),
        (9, Act::Take(1, 5)),
        (9, Act::Take(6, 8)),
    ],
    scans: 9,
    ..RECORD
};

/// On a full shelf of one the trigger is covered all the same, before the take and after it.
#[test]
fn records_that_share_no_scan(rt: HostRuntime) {
    assert!(rt; is_played(&rt, rt.alloc(), UNSHARED));
    let full = Play {
        shelf: 1,
        acts: &[
            RECORDS,
            &[COVERED, Act::Take(1, 5), COVERED],
            OPENS_AT_THE_NEXT,
        ],
        entries: &[
            (4, OPENS),
            (6, COVERED),
            (6, Act::Take(1, 5)),
            (6, COVERED),
            (7, OPENS_AGAIN),
        ],
        scans: 7,
        ..UNSHARED
    };
    assert!(rt; is_played(&rt, rt.alloc(), full));
}

/// A lane of one, never pumped.
const FULL_LANE: Play = Play {
    lane: 1,
    acts: &[&[Act::Offer(&[10]), Act::Full(11)]],
    entries: &[],
    left: &[(0, 10)],
    scans: 0,
    ..RECORD
};

/// Pumps of at most three over two scans, over three and over five, and a pump of none; two scans are left.
const PUMPS: Play = Play {
    acts: &[&[
        Act::Pump(0, 0, End::Most),
        Act::Pump(3, 0, End::Empty),
        Act::Offer(&[10, 11]),
        Act::Pump(0, 0, End::Most),
        Act::Pump(3, 2, End::Empty),
        Act::Offer(&[12, 13, 14]),
        Act::Pump(3, 3, End::Most),
        Act::Offer(&[15, 16, 17, 18, 19]),
        Act::Pump(3, 3, End::Most),
    ]],
    entries: &[],
    left: &[(0, 18), (0, 19)],
    scans: 8,
    ..RECORD
};

/// Rules on a contact that isn't there come back and leave an entry; rules on the channel are set. A scan that the recorder
/// refuses is a scan step too.
const RULES: Play = Play {
    lane: 2,
    acts: &[&[
        Act::Edge,
        Act::Offer(&[10]),
        Act::TwoReadings,
        Act::Full(11),
        Act::Pump(8, 2, End::Empty),
        Act::Level,
        Act::Edge,
        Act::Offer(&[11]),
        Act::Pump(8, 1, End::Empty),
        Act::TakeNone,
    ]],
    entries: &[
        (0, Act::Edge),
        (2, Act::Level),
        (2, Act::Edge),
        (3, Act::TakeNone),
    ],
    left: &[],
    scans: 2,
    ..RECORD
};

/// Two scans are lost while a lane of one is full.
const LOSES: &[Act] = &[
    Act::Lost(0),
    Act::Offer(&[10]),
    Act::Full(11),
    Act::Lose(1),
    Act::Full(12),
    Act::Lose(2),
    Act::Pump(9, 1, End::Empty),
    Act::Lost(2),
    Act::Offer(&[13]),
    Act::Lost(0),
];

/// The next scan that the lane takes carries both. Each is a scan step, before that scan's own.
const LOSSES: Play = Play {
    lane: 1,
    acts: &[LOSES, &[Act::Pump(2, 2, End::Most), OPENS]],
    entries: &[(3, OPENS)],
    left: &[(0, 13)],
    scans: 3,
    ..RECORD
};

/// The same, where the pump stops between the two: one is left with its scan.
const ONE_LOSS: Play = Play {
    acts: &[LOSES, &[Act::Pump(1, 1, End::Most), OPENS]],
    entries: &[(2, OPENS)],
    left: &[(1, 13)],
    scans: 2,
    ..LOSSES
};

/// Losses after the last scan that the lane took are in no list. Those of two scans come before each.
const LAST_LOSSES: Play = Play {
    acts: &[&[
        Act::Lose(1),
        Act::Offer(&[11]),
        Act::Lose(1),
        Act::Lose(2),
        Act::Offer(&[14]),
        Act::Lose(1),
        Act::Pump(1, 1, End::Most),
        OPENS,
        Act::Pump(9, 4, End::Empty),
        Act::Lost(1),
    ]],
    entries: &[(1, OPENS)],
    left: &[],
    scans: 5,
    ..RECORD
};

#[test]
fn lanes_pumps_rules_and_losses(rt: HostRuntime) {
    for (name, play) in [
        ("a full lane", FULL_LANE),
        ("pumps", PUMPS),
        ("rules", RULES),
        ("two losses", LOSSES),
        ("a pump between the two", ONE_LOSS),
        ("losses after the last scan", LAST_LOSSES),
    ] {
        assert!(rt; is_played(&rt, rt.alloc(), play), "{name}");
    }
}
