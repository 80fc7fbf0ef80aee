//! The writers: on a record's file, on a file of many channels, and on files that they refuse.

use crate::refused::common::Heap;
use crate::refused::files::file;
use crate::refused::refusing::{Must, Outcome, Trial, refuses, right_if};
use crate::samples::{Pair, pair_in};
use comtrade_read::read;
use comtrade_write::{
    File, Head, Kind, WriteFault, ascii_bytes, binary_bytes, cfg_bytes, dat_bytes,
};
use dfr_channels::Items;
use failing_allocator::Refusing;
use std::alloc::Allocator;

#[derive(Clone, Copy)]
enum Writer {
    Cfg,
    Ascii,
    Binary,
    Dat,
}

fn written<A: Allocator + Copy>(file: &File<A>, writer: Writer) -> Result<Vec<u8, A>, WriteFault> {
    let alloc = *file.rows.allocator();
    match writer {
        Writer::Cfg => cfg_bytes(alloc, file),
        Writer::Ascii => ascii_bytes(alloc, file),
        Writer::Binary => binary_bytes(alloc, file),
        Writer::Dat => dat_bytes(alloc, file),
    }
}

/// A file that is written so, or has this fault.
#[derive(Drop)]
struct Writing<'f, A: Allocator> {
    file: &'f File<A>,
    writer: Writer,
    wanted: Result<&'f [u8], WriteFault>,
}

impl<A: Allocator + Copy> Trial for Writing<'_, A> {
    fn call(&mut self) -> Outcome {
        match written(self.file, self.writer) {
            Ok(bytes) => right_if(self.wanted == Ok(bytes.as_slice())),
            Err(WriteFault::Memory) => Outcome::Memory,
            Err(fault) => right_if(self.wanted == Err(fault)),
        }
    }
}

fn is_written<'a>(heap: Heap<'a>, file: &File<Heap<'a>>, writer: Writer, wanted: &[u8]) -> bool {
    let writing = Writing {
        file,
        writer,
        wanted: Ok(wanted),
    };
    refuses(heap, Some(writing), Must::Answer)
}

/// Both data writers write these, whatever the head's kind is.
fn both_refuse<'a>(heap: Heap<'a>, file: &File<Heap<'a>>, ascii: &[u8], binary: &[u8]) -> bool {
    is_written(heap, file, Writer::Ascii, ascii) && is_written(heap, file, Writer::Binary, binary)
}

fn pair_refuses<'a>(heap: Heap<'a>, file: &File<Heap<'a>>, texts: Pair) -> bool {
    is_written(heap, file, Writer::Cfg, texts.cfg) && is_written(heap, file, Writer::Dat, texts.dat)
}

fn kind_refuses(heap: Heap, kind: Kind) -> bool {
    match file(heap, kind) {
        Some(file) => {
            pair_refuses(heap, &file, pair_in(kind))
                && both_refuse(
                    heap,
                    &file,
                    pair_in(Kind::Ascii).dat,
                    pair_in(Kind::Binary).dat,
                )
        }
        None => false,
    }
}

#[test]
fn writers_refused(rt: HostRuntime) {
    let heap = Refusing::new(rt.alloc());
    assert!(rt; kind_refuses(&heap, Kind::Ascii) && kind_refuses(&heap, Kind::Binary));
}

/// One row of six analogue and six status channels, in either form.
const SIX_AND_SIX: &[u8] =
    b"Bay 1,DFR,1999\r\n12,6A,6D\r\n1,IA,A,line 1,A,1,0,0,-32767,32767,1,1,P\r\n2,IB,B,line 1,A,1,0,0,-32767,32767,1,1,P\r\n3,IC,C,line 1,A,1,0,0,-32767,32767,1,1,P\r\n4,UA,A,line 1,V,1,0,0,-32767,32767,1,1,S\r\n5,UB,B,line 1,V,1,0,0,-32767,32767,1,1,S\r\n6,UC,C,line 1,V,1,0,0,-32767,32767,1,1,S\r\n1,TRIP,A,line 1,0\r\n2,TRIP,B,line 1,0\r\n3,TRIP,C,line 1,0\r\n4,CLOSED,A,line 1,1\r\n5,CLOSED,B,line 1,1\r\n6,CLOSED,C,line 1,1\r\n50\r\n1\r\n1000,1\r\n01/01/1970,00:00:00.001000\r\n01/01/1970,00:00:00.001000\r\nASCII\r\n1\r\n";

const ASCII: &[u8] = b"5,667,-760,1274,72,61,-140,-502,0,0,0,0,1,1\r\n\x1A";

const BINARY: &[u8] = b"\x05\0\0\0\x9B\x02\0\0\x08\xFD\xFA\x04\x48\0\x3D\0\x74\xFF\x0A\xFE\x30\0";

fn six_and_six_refuse(heap: Heap) -> bool {
    match read(heap, SIX_AND_SIX, ASCII) {
        Ok(file) => {
            is_written(heap, &file, Writer::Cfg, SIX_AND_SIX)
                && both_refuse(heap, &file, ASCII, BINARY)
        }
        Err(_) => false,
    }
}

#[test]
fn six_and_six_refused(rt: HostRuntime) {
    let heap = Refusing::new(rt.alloc());
    assert!(rt; six_and_six_refuse(&heap));
}

fn is_refused<'a>(
    heap: Heap<'a>,
    file: &File<Heap<'a>>,
    writer: Writer,
    fault: WriteFault,
    must: Must,
) -> bool {
    let writing = Writing {
        file,
        writer,
        wanted: Err(fault),
    };
    refuses(heap, Some(writing), must)
}

/// Data with a value and with a stamp in their second rows that the BINARY form can't say.
const WIDE: &[u8] =
    b"1,0,11,0\r\n2,1000,32768,0\r\n3,2000,13,0\r\n4,3000,14,0\r\n5,4000,15,0\r\n\x1A";

const LATE: &[u8] =
    b"1,0,11,0\r\n2,4294967295,12,0\r\n3,2000,13,0\r\n4,3000,14,0\r\n5,4000,15,0\r\n\x1A";

fn row_refuses(heap: Heap, dat: &[u8], fault: WriteFault) -> bool {
    match read(heap, pair_in(Kind::Ascii).cfg, dat) {
        Ok(file) => is_refused(heap, &file, Writer::Binary, fault, Must::Answer),
        Err(_) => false,
    }
}

#[test]
fn faulty_rows_refused(rt: HostRuntime) {
    let heap = Refusing::new(rt.alloc());
    assert!(rt; row_refuses(&heap, WIDE, WriteFault::Value(2, 1)));
    assert!(rt; row_refuses(&heap, LATE, WriteFault::Stamp(2)));
}

/// The same pair with four rows in place of five.
const FOUR_ROWS: Pair = Pair {
    cfg: b"Bay 1,DFR,1999\r\n2,1A,1D\r\n1,IA,A,line 1,A,1,0,0,-32767,32767,1,1,P\r\n1,TRIP,A,line 1,0\r\n50\r\n1\r\n1000,4\r\n01/01/1970,00:00:00.001000\r\n01/01/1970,00:00:00.003000\r\nASCII\r\n1\r\n",
    dat: b"1,0,11,0\r\n2,1000,12,0\r\n3,2000,13,0\r\n4,3000,14,0\r\n\x1A",
};

fn head_of<A: Allocator>(file: File<A>) -> Head<A> {
    let File { head, rows } = file;
    drop(rows);
    head
}

fn rows_under<A: Allocator>(head: Head<A>, file: File<A>) -> File<A> {
    let File { head: own, rows } = file;
    drop(own);
    File { head, rows }
}

/// The head of five rows over four.
fn over_four<A: Allocator>(five: Head<A>, four: Option<File<A>>) -> Option<File<A>> {
    match four {
        Some(four) => Some(rows_under(five, four)),
        None => {
            drop(five);
            None
        }
    }
}

fn short<A: Allocator + Copy>(alloc: A) -> Option<File<A>> {
    match file(alloc, Kind::Ascii) {
        Some(five) => over_four(
            head_of(five),
            read(alloc, FOUR_ROWS.cfg, FOUR_ROWS.dat).ok(),
        ),
        None => None,
    }
}

fn each_may_refuse<'a>(heap: Heap<'a>, short: &File<Heap<'a>>) -> bool {
    is_refused(heap, short, Writer::Cfg, WriteFault::Shape, Must::May)
        && is_refused(heap, short, Writer::Ascii, WriteFault::Shape, Must::May)
        && is_refused(heap, short, Writer::Binary, WriteFault::Shape, Must::May)
}

fn short_refuses(heap: Heap) -> bool {
    match short(heap) {
        Some(short) => each_may_refuse(heap, &short),
        None => false,
    }
}

/// A row too few, for each of the three writers. They may find that before they allocate.
#[test]
fn short_files_refused(rt: HostRuntime) {
    let heap = Refusing::new(rt.alloc());
    assert!(rt; short_refuses(&heap));
}

/// The file of a station whose name has a comma in it.
fn renamed<A: Allocator>(file: File<A>, station: Items<u8, A>) -> File<A> {
    let mut other = file;
    other.head.station = station;
    other
}

fn named<A: Allocator + Copy>(file: File<A>) -> Option<File<A>> {
    match Vec::from_slice(*file.rows.allocator(), b"a,b") {
        Ok(station) => Some(renamed(file, Items::of(station))),
        Err(_) => None,
    }
}

fn comma<A: Allocator + Copy>(alloc: A) -> Option<File<A>> {
    match file(alloc, Kind::Ascii) {
        Some(file) => named(file),
        None => None,
    }
}

fn name_refuses(heap: Heap) -> bool {
    match comma(heap) {
        Some(file) => is_refused(heap, &file, Writer::Cfg, WriteFault::Text(1, 1), Must::May),
        None => false,
    }
}

#[test]
fn comma_in_a_name_refused(rt: HostRuntime) {
    let heap = Refusing::new(rt.alloc());
    assert!(rt; name_refuses(&heap));
}
