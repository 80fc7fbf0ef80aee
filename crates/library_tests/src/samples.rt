//! Scripts and pairs of files that several tests read or want.

use comtrade_write::Kind;

/// One analogue and one status channel, 1,000 scans a second from 1970 on, and rules; then four scans, a trigger, two scans that
/// fill its record, and a take.
pub const SCRIPT: &[u8] =
    b"station Bay 1\ndevice DFR\nanalog IA,A,line 1,A,1,0,0,-32767,32767,1,1,P\nstatus TRIP,A,line 1,0\nfreq 50\nrate 1000\nstart 0\nlimits 2,2,6,1\nrules level 0 over 100;edge 0 rise\ngo\nscan 10/0\nscan 11/0\nscan 12/0\nscan 13/0\ntrigger\nscan 14/0\nscan 15/0\ntake\n";

/// The two files of a record.
#[derive(Clone, Copy)]
pub struct Pair {
    pub cfg: &'static [u8],
    pub dat: &'static [u8],
}

/// The record of that script.
pub const ASCII: Pair = Pair {
    cfg: ASCII_CFG,
    dat: b"1,0,11,0\r\n2,1000,12,0\r\n3,2000,13,0\r\n4,3000,14,0\r\n5,4000,15,0\r\n\x1A",
};

pub const ASCII_CFG: &[u8] =
    b"Bay 1,DFR,1999\r\n2,1A,1D\r\n1,IA,A,line 1,A,1,0,0,-32767,32767,1,1,P\r\n1,TRIP,A,line 1,0\r\n50\r\n1\r\n1000,5\r\n01/01/1970,00:00:00.001000\r\n01/01/1970,00:00:00.003000\r\nASCII\r\n1\r\n";

const BINARY: Pair = Pair {
    cfg: b"Bay 1,DFR,1999\r\n2,1A,1D\r\n1,IA,A,line 1,A,1,0,0,-32767,32767,1,1,P\r\n1,TRIP,A,line 1,0\r\n50\r\n1\r\n1000,5\r\n01/01/1970,00:00:00.001000\r\n01/01/1970,00:00:00.003000\r\nBINARY\r\n1\r\n",
    dat: b"\x01\0\0\0\0\0\0\0\x0B\0\0\0\x02\0\0\0\xE8\x03\0\0\x0C\0\0\0\x03\0\0\0\xD0\x07\0\0\x0D\0\0\0\x04\0\0\0\xB8\x0B\0\0\x0E\0\0\0\x05\0\0\0\xA0\x0F\0\0\x0F\0\0\0",
};

pub fn pair_in(kind: Kind) -> Pair {
    match kind {
        Kind::Ascii => ASCII,
        Kind::Binary => BINARY,
    }
}

/// One record of one channel, by a trigger after four scans.
pub const MANUAL: &[u8] =
    b"station Bay 1\ndevice DFR\nanalog IA,A,,A,1,0,0,-32767,32767,1,1,P\nfreq 50\nrate 1000\nstart 0\nlimits 2,2,6,1\ngo\nscan 10/\nscan 11/\nscan 12/\nscan 13/\ntrigger\nscan 14/\nscan 15/\ntake\n";

/// The two files of its record, of five rows.
pub const FIRST_CFG: &[u8] =
    b"Bay 1,DFR,1999\r\n1,1A,0D\r\n1,IA,A,,A,1,0,0,-32767,32767,1,1,P\r\n50\r\n1\r\n1000,5\r\n01/01/1970,00:00:00.001000\r\n01/01/1970,00:00:00.003000\r\nASCII\r\n1\r\n";

pub const FIRST_DAT: &[u8] = b"1,0,11\r\n2,1000,12\r\n3,2000,13\r\n4,3000,14\r\n5,4000,15\r\n\x1A";

pub const FIRST: Pair = Pair {
    cfg: FIRST_CFG,
    dat: FIRST_DAT,
};

/// The same data in BINARY form.
pub const FIRST_BINARY: &[u8] =
    b"\x01\0\0\0\0\0\0\0\x0B\0\x02\0\0\0\xE8\x03\0\0\x0C\0\x03\0\0\0\xD0\x07\0\0\x0D\0\x04\0\0\0\xB8\x0B\0\0\x0E\0\x05\0\0\0\xA0\x0F\0\0\x0F\0";

/// The same configuration file, whose counts of channels don't add up.
pub const FIRST_COUNTS: &[u8] =
    b"Bay 1,DFR,1999\r\n2,1A,0D\r\n1,IA,A,,A,1,0,0,-32767,32767,1,1,P\r\n50\r\n1\r\n1000,5\r\n01/01/1970,00:00:00.001000\r\n01/01/1970,00:00:00.003000\r\nASCII\r\n1\r\n";

/// The configuration file of one channel and one row.
pub const CFG: &[u8] =
    b"Bay 1,DFR,1999\n1,1A,0D\n1,IA,A,,A,1,0,0,-32767,32767,1,1,P\n50\n1\n1000,1\n01/01/1970,00:00:00.000000\n01/01/1970,00:00:00.000000\nASCII\n1\n";
