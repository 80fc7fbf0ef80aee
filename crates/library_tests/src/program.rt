//! The program over readers and writers in memory: what no clause says of a reader or a writer that fails.

use crate::samples::{FIRST_CFG, FIRST_DAT, MANUAL};
use crate::streams::{Narrow, Pieces, taking};
use comtrade_write::Kind;
use dfr_program::{InputFault, RunFault, read_all, read_over, replay_over};
use std::alloc::{AllocError, Global};
use std::io::{self, ErrorKind, Read};
use std::test::Fail;

const SET_UP: &[u8] =
    b"station Bay 1\ndevice DFR\nanalog IA,A,,A,1,0,0,-32767,32767,1,1,P\nfreq 50\nrate 1000\nstart 0\nlimits 2,2,6,1\ngo\n";

/// What the script prints: the answers, and the two files of its record.
const PRINTED: &[u8] =
    b"scan 0\nscan 1\nscan 2\nscan 3\ntrigger opened 1\nscan 4\nscan 5 closed 1\nrecord 1 1 3 5 manual\ncfg 142\nBay 1,DFR,1999\r\n1,1A,0D\r\n1,IA,A,,A,1,0,0,-32767,32767,1,1,P\r\n50\r\n1\r\n1000,5\r\n01/01/1970,00:00:00.001000\r\n01/01/1970,00:00:00.003000\r\nASCII\r\n1\r\ndat 53\n1,0,11\r\n2,1000,12\r\n3,2000,13\r\n4,3000,14\r\n5,4000,15\r\n\x1A\n";

const READING: &[u8] =
    b"station Bay 1\ndevice DFR\nanalog 1 status 0 rows 5\nfirst 1000 trigger 3000\n";

/// What a writer gets of the program.
#[derive(Clone, Copy, Debug)]
enum Output {
    /// The replay of the script.
    Replay,
    /// The first pair, which is read.
    Reading,
}

fn text_of(output: Output) -> &'static [u8] {
    match output {
        Output::Replay => PRINTED,
        Output::Reading => READING,
    }
}

/// What the program answers that prints this to the writer.
fn written(alloc: Global, output: Output, writer: &mut Narrow) -> Result<bool, RunFault> {
    let mut script = MANUAL;
    match output {
        Output::Replay => replay_over(alloc, &mut script, writer, Kind::Ascii),
        Output::Reading => read_over(alloc, FIRST_CFG, FIRST_DAT, writer),
    }
}

/// Whether just so many bytes of what the program prints are written, where the writer takes so many, one a call.
fn is_cut_after(alloc: Global, output: Output, limit: usize) -> bool {
    let mut narrow = taking(alloc, limit, 1, Some(ErrorKind::Other));
    let ended = written(alloc, output, &mut narrow);
    let text = text_of(output);
    let wanted = if limit >= text.len() {
        Ok(true)
    } else {
        Err(RunFault::Output)
    };
    ended == wanted && text.get(..limit) == Some(narrow.taken.as_slice())
}

#[test]
fn a_failing_writer_has_a_prefix(rt: HostRuntime) {
    for (output, len) in [(Output::Replay, 301usize), (Output::Reading, 74)] {
        assert_eq!(rt; text_of(output).len(), len);
        for limit in 0..len + 1 {
            assert!(rt;
                is_cut_after(rt.alloc(), output, limit),
                "{output:?} after {limit} bytes"
            );
        }
    }
}

/// What a replay of the text answers that comes byte by byte, where it wrote this.
fn answer(
    alloc: Global,
    text: &[u8],
    fault: Option<ErrorKind>,
    wanted: &[u8],
) -> Option<Result<bool, RunFault>> {
    let mut out: Vec<u8> = Vec::new(alloc);
    let mut slow = Pieces {
        bytes: text,
        size: 1,
        fault,
    };
    let ended = replay_over(alloc, &mut slow, &mut out, Kind::Ascii);
    (out.as_slice() == wanted).then_some(ended)
}

#[test]
fn a_slow_reader_is_read_to_its_end(rt: HostRuntime) {
    assert_eq!(rt; answer(rt.alloc(), MANUAL, None, PRINTED), Some(Ok(true)));
}

/// None of these is tried again.
#[test]
fn a_failing_reader_is_input(rt: HostRuntime) {
    let input = Some(Err(RunFault::Input));
    for kind in [
        ErrorKind::Other,
        ErrorKind::Interrupted,
        ErrorKind::OutOfMemory,
    ] {
        assert_eq!(rt; answer(rt.alloc(), b"", Some(kind), b""), input);
        assert_eq!(rt; answer(rt.alloc(), MANUAL, Some(kind), b""), input);
    }
}

/// The set-up and 10,000 scans, whose answers are written before the last of them is made.
fn long_script(alloc: Global) -> Result<Vec<u8>, AllocError> {
    let mut script = Vec::from_slice(alloc, SET_UP)?;
    for _ in 0..10_000 {
        script.extend_from_slice(b"scan 1/\n")?;
    }
    Ok(script)
}

/// Whether a writer that takes ten bytes, is interrupted, and would take all from then on has ten in the end.
fn has_ten_bytes(alloc: Global, script: &[u8]) -> bool {
    let mut writer = taking(alloc, 10, usize::MAX, Some(ErrorKind::Interrupted));
    let mut input = script;
    let ended = replay_over(alloc, &mut input, &mut writer, Kind::Ascii);
    ended == Err(RunFault::Output) && writer.taken.as_slice() == b"scan 0\nsca".as_slice()
}

#[test]
fn a_writer_that_failed_gets_no_more(rt: HostRuntime) {
    let ten = match long_script(rt.alloc()) {
        Ok(script) => has_ten_bytes(rt.alloc(), &script),
        Err(_) => false,
    };
    assert!(rt; ten);
}

/// A reader that gives so many bytes, all it can at each call.
#[derive(Drop)]
struct Long {
    left: usize,
}

impl Read for Long {
    fn read(&mut self, buf: &mut [u8]) -> io::Result<usize> {
        let count = buf.len().min(self.left);
        self.left -= count;
        Ok(count)
    }
}

/// How many bytes are read of so many.
fn count_read(alloc: Global, left: usize) -> Result<usize, InputFault> {
    match read_all(alloc, &mut Long { left }) {
        Ok(bytes) => Ok(bytes.len()),
        Err(fault) => Err(fault),
    }
}

#[test]
fn reads_up_to_the_limit(rt: HostRuntime) {
    assert_eq!(rt; count_read(rt.alloc(), 0), Ok(0));
    assert_eq!(rt; count_read(rt.alloc(), 16_777_216), Ok(16_777_216));
    assert_eq!(rt; count_read(rt.alloc(), 16_777_217), Err(InputFault::Long));
    assert_eq!(rt; count_read(rt.alloc(), usize::MAX), Err(InputFault::Long));
}

#[test]
fn faults_have_their_texts(rt: HostRuntime) -> Result<(), Fail> {
    for (fault, want) in [
        (RunFault::Input, "dfr: input"),
        (RunFault::Output, "dfr: output"),
        (RunFault::Memory, "dfr: memory"),
    ] {
        let text = format!(in rt.alloc(); "{fault}")?;
        assert_eq!(rt; text.as_str(), want);
    }
    Ok(())
}
