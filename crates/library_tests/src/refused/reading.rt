//! The reader: heads, data and pairs, and files with a fault.

use crate::refused::common::{Heap, with_line};
use crate::refused::files::{has_cfg, is_right_file};
use crate::refused::refusing::{
    Consuming, Must, Outcome, Trial, memory_if, refuses, refuses_anew, right_if,
};
use crate::samples::{CFG, FIRST_BINARY, FIRST_CFG, FIRST_DAT, Pair, pair_in};
use comtrade_read::{Part, ReadFault, read, read_cfg, read_dat};
use comtrade_write::{File, Head, Kind};
use failing_allocator::Refusing;
use std::alloc::{Allocator, Global};

type ReadData<A> = Result<File<A>, (ReadFault, Head<A>)>;

fn data_under<A: Allocator + Copy>(alloc: A, head: Head<A>, dat: &[u8]) -> Option<ReadData<A>> {
    if head.analog.items().len() < 1000 && head.status.items().len() < 1000 {
        Some(read_dat(alloc, head, dat))
    } else {
        drop(head);
        None
    }
}

fn file_in<A: Allocator>(read: Option<ReadData<A>>) -> Option<File<A>> {
    match read {
        Some(read) => read.ok(),
        None => None,
    }
}

/// The head reads the data of these texts and writes its own text again.
fn is_head_of<A: Allocator + Copy>(alloc: A, head: Head<A>, texts: Pair) -> bool {
    is_some_and!(file_in(data_under(alloc, head, texts.dat)), |file| {
        has_cfg(alloc, &file, texts.cfg)
    })
}

/// The head of these texts.
#[derive(Drop)]
struct HeadOf<'a> {
    heap: Heap<'a>,
    texts: Pair,
}

impl Trial for HeadOf<'_> {
    fn call(&mut self) -> Outcome {
        let head = read_cfg(self.heap, self.texts.cfg);
        self.heap.refuse_no_more();
        match head {
            Ok(head) => right_if(is_head_of(self.heap, head, self.texts)),
            Err(fault) => memory_if(fault == ReadFault::Memory),
        }
    }
}

#[test]
fn heads_refused(rt: HostRuntime) {
    let heap = Refusing::new(rt.alloc());
    for kind in [Kind::Ascii, Kind::Binary] {
        let texts = pair_in(kind);
        let head = HeadOf { heap: &heap, texts };
        assert!(rt; refuses(&heap, Some(head), Must::Answer));
    }
}

/// The data of these texts under their head. Where there is no memory for them the head comes back, and reads the same data then.
#[derive(Drop)]
struct DataOf<'a> {
    heap: Heap<'a>,
    texts: Pair,
}

impl<'a> Consuming for DataOf<'a> {
    type Made = Head<Heap<'a>>;

    fn make(&self) -> Option<Head<Heap<'a>>> {
        read_cfg(self.heap, self.texts.cfg).ok()
    }

    fn call(&self, head: Head<Heap<'a>>) -> Outcome {
        let file = data_under(self.heap, head, self.texts.dat);
        self.heap.refuse_no_more();
        match file {
            Some(Ok(file)) => right_if(is_right_file(self.heap, file, self.texts)),
            Some(Err((ReadFault::Memory, back))) => {
                memory_if(is_head_of(self.heap, back, self.texts))
            }
            other => {
                drop(other);
                Outcome::Wrong
            }
        }
    }
}

#[test]
fn data_refused(rt: HostRuntime) {
    let heap = Refusing::new(rt.alloc());
    for kind in [Kind::Ascii, Kind::Binary] {
        let texts = pair_in(kind);
        assert!(rt; refuses_anew(&heap, DataOf { heap: &heap, texts }, Must::Answer));
    }
}

/// A pair whose file writes these texts.
#[derive(Drop)]
struct PairOf<'a> {
    heap: Heap<'a>,
    pair: Pair,
    texts: Pair,
}

impl Trial for PairOf<'_> {
    fn call(&mut self) -> Outcome {
        let file = read(self.heap, self.pair.cfg, self.pair.dat);
        self.heap.refuse_no_more();
        match file {
            Ok(file) => right_if(is_right_file(self.heap, file, self.texts)),
            Err((_, fault)) => memory_if(fault == ReadFault::Memory),
        }
    }
}

fn pair_refuses(heap: Heap, pair: Pair, texts: Pair) -> bool {
    refuses(heap, Some(PairOf { heap, pair, texts }), Must::Answer)
}

#[test]
fn pairs_refused(rt: HostRuntime) {
    let heap = Refusing::new(rt.alloc());
    for kind in [Kind::Ascii, Kind::Binary] {
        assert!(rt; pair_refuses(&heap, pair_in(kind), pair_in(kind)));
    }
}

/// A pair in spellings that the writers don't use, and what they write of it.
const LENIENT: Pair = Pair {
    cfg: b" Bay 1 , DFR,1999\n1,1a,0d\n1, IA ,A,,A,1.5E-3,+0,,-32767,32767,001,1,p\n\n1\n1000,2\n1/1/1970,0:0:0.001\n01/01/1970,00:00:00.003000\nascii\n1",
    dat: b" 1,0, +5\n2,,\n",
};

const PLAIN: Pair = Pair {
    cfg: b"Bay 1,DFR,1999\r\n1,1A,0D\r\n1,IA,A,,A,0.0015,0,0,-32767,32767,1,1,P\r\n0\r\n1\r\n1000,2\r\n01/01/1970,00:00:00.001000\r\n01/01/1970,00:00:00.003000\r\nASCII\r\n1\r\n",
    dat: b"1,0,5\r\n2,,99999\r\n\x1A",
};

/// The same of five rows in BINARY form, which has one spelling.
const LENIENT_BINARY: Pair = Pair {
    cfg: b" Bay 1 , DFR,1999\n1,1a,0d\n1, IA ,A,,A,1.5E-3,+0,,-32767,32767,001,1,p\n\n1\n1000,5\n1/1/1970,0:0:0.001\n01/01/1970,00:00:00.003000\nbinary\n1",
    dat: FIRST_BINARY,
};

const PLAIN_BINARY: Pair = Pair {
    cfg: b"Bay 1,DFR,1999\r\n1,1A,0D\r\n1,IA,A,,A,0.0015,0,0,-32767,32767,1,1,P\r\n0\r\n1\r\n1000,5\r\n01/01/1970,00:00:00.001000\r\n01/01/1970,00:00:00.003000\r\nBINARY\r\n1\r\n",
    dat: FIRST_BINARY,
};

#[test]
fn lenient_pairs_refused(rt: HostRuntime) {
    let heap = Refusing::new(rt.alloc());
    for (pair, texts) in [(LENIENT, PLAIN), (LENIENT_BINARY, PLAIN_BINARY)] {
        assert!(rt; pair_refuses(&heap, pair, texts));
    }
}

/// A pair with this fault in this part.
#[derive(Drop)]
struct Faulty<'a, A: Allocator> {
    alloc: A,
    cfg: &'a [u8],
    dat: &'a [u8],
    wanted: (Part, ReadFault),
}

impl<A: Allocator + Copy> Trial for Faulty<'_, A> {
    fn call(&mut self) -> Outcome {
        match read(self.alloc, self.cfg, self.dat) {
            Ok(file) => {
                drop(file);
                Outcome::Wrong
            }
            Err((_, ReadFault::Memory)) => Outcome::Memory,
            Err((part, fault)) => right_if(part == self.wanted.0 && fault == self.wanted.1),
        }
    }
}

fn fault_refuses(
    heap: Heap,
    cfg: &[u8],
    dat: &[u8],
    wanted: (Part, ReadFault),
    must: Must,
) -> bool {
    let faulty = Faulty {
        alloc: heap,
        cfg,
        dat,
        wanted,
    };
    refuses(heap, Some(faulty), must)
}

/// A file that ends after its second line, and data whose first value is no number.
#[test]
fn faults_refused(rt: HostRuntime) {
    let heap = Refusing::new(rt.alloc());
    let ends = (Part::Cfg, ReadFault::Missing(3));
    assert!(rt; fault_refuses(&heap, b"Bay 1,DFR,1999\n1,1A,0D\n", b"", ends, Must::Answer));
    let spelled = (Part::Dat, ReadFault::Number(1, 3));
    assert!(rt; fault_refuses(&heap, CFG, b"1,0,x\r\n", spelled, Must::Answer));
}

/// A configuration file with this line in place of its own. Before the first line's fault only lists of lines and of fields are
/// made, whose room a smaller allocation can give.
fn line_refuses(heap: Heap, alloc: Global, n: usize, line: &[u8], fault: ReadFault) -> bool {
    let must = if n == 1 { Must::Meet } else { Must::Answer };
    match with_line(alloc, FIRST_CFG, n, line) {
        Some(cfg) => fault_refuses(heap, &cfg, FIRST_DAT, (Part::Cfg, fault), must),
        None => false,
    }
}

#[test]
fn faulty_lines_refused(rt: HostRuntime) {
    let heap = Refusing::new(rt.alloc());
    for (n, line, fault) in [
        (1usize, b"Bay 1,DFR".as_slice(), ReadFault::Revision),
        (1, b"Bay 1,DFR,2013", ReadFault::Revision),
        (1, b"Bay 1", ReadFault::Fields(1)),
        (2, b"2,1A,0D", ReadFault::Counts(2)),
        (2, b"999999,999999A,0D", ReadFault::Fields(4)),
        (7, b"30/02/2000,00:00:00.000000", ReadFault::Instant(7)),
        (9, b"BINARY32", ReadFault::Kind),
        (10, b"1\r\n1", ReadFault::Extra(11)),
    ] {
        assert!(rt; line_refuses(&heap, rt.alloc(), n, line, fault), "line {n}");
    }
}

/// A coefficient that is no number, too great or too fine, another channel's number, and a field too few.
#[test]
fn faulty_channels_refused(rt: HostRuntime) {
    let heap = Refusing::new(rt.alloc());
    for (line, fault) in [
        (
            b"1,IA,A,,A,x,0,0,-32767,32767,1,1,P".as_slice(),
            ReadFault::Number(3, 6),
        ),
        (
            b"1,IA,A,,A,1E99999999999999999999,0,0,-32767,32767,1,1,P",
            ReadFault::Number(3, 6),
        ),
        (
            b"1,IA,A,,A,0E-81,0,0,-32767,32767,1,1,P",
            ReadFault::Number(3, 6),
        ),
        (b"2,IA,A,,A,1,0,0,-32767,32767,1,1,P", ReadFault::Counts(3)),
        (b"1,IA,A,,A,1,0,0,-32767,32767,1,1", ReadFault::Fields(3)),
    ] {
        assert!(rt;
            line_refuses(&heap, rt.alloc(), 3, line, fault),
            "{fault:?}"
        );
    }
}
