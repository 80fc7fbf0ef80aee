//! Prints a GOOSE frame.

use crate::word;
use dfr_bus::{Goose, Span, read_datum, read_goose};
use std::io;
use std::io::Write;

/// Prints the elements of the data, up to the first fault: what each is, and its content.
fn print_data<W: Write>(out: &mut W, bytes: &[u8], data: Span) -> io::Result<()> {
    let mut at = data.from;
    while at < data.to && data.to <= bytes.len() {
        match read_datum(bytes, at, data.to) {
            Ok(datum) => {
                word::bytes(out, "datum", bytes, datum.content)?;
                write!(out, ":{:?}", datum.kind)?;
                at = datum.content.to;
            }
            Err(fault) => return writeln!(out, " fault {} {:?}", fault.at, fault.wrong),
        }
    }
    writeln!(out, "")
}

/// Prints the fields of a message.
fn print_fields<W: Write>(out: &mut W, bytes: &[u8], message: &Goose) -> io::Result<()> {
    write!(
        out,
        " goose appid={} reserved1={} reserved2={}",
        message.app_id, message.reserved_1, message.reserved_2
    )?;
    word::bytes(out, "gocbRef", bytes, message.gocb_ref)?;
    write!(out, " timeAllowedtoLive={}", message.time_allowed_to_live)?;
    word::bytes(out, "datSet", bytes, message.dat_set)?;
    word::optional(out, "goID", bytes, message.go_id)?;
    word::bytes(out, "t", bytes, message.t)?;
    write!(
        out,
        " stNum={} sqNum={} test={} confRev={} ndsCom={} entries={}",
        message.st_num,
        message.sq_num,
        message.test,
        message.conf_rev,
        message.nds_com,
        message.entries
    )
}

/// Prints what a payload says.
pub fn print<W: Write>(out: &mut W, bytes: &[u8], payload: Span) -> io::Result<()> {
    if payload.from > payload.to || payload.to > bytes.len() {
        return Ok(());
    }
    match read_goose(bytes, payload.from, payload.to) {
        Ok(message) => {
            print_fields(out, bytes, &message)?;
            print_data(out, bytes, message.all_data)
        }
        Err(fault) => writeln!(out, " fault {} {:?}", fault.at, fault.wrong),
    }
}
