//! Prints a frame of sampled values.

use crate::word;
use dfr_bus::{Asdu, Span, read_sampled_values};
use std::io;
use std::io::Write;

/// Prints the fields of a unit.
fn print_unit<W: Write>(out: &mut W, bytes: &[u8], unit: &Asdu) -> io::Result<()> {
    write!(out, " asdu")?;
    word::bytes(out, "svID", bytes, unit.sv_id)?;
    word::optional(out, "datSet", bytes, unit.dat_set)?;
    write!(out, " smpCnt={} confRev={}", unit.smp_cnt, unit.conf_rev)?;
    word::optional(out, "refrTm", bytes, unit.refr_tm)?;
    write!(out, " smpSynch={}", unit.smp_synch)?;
    word::number(out, "smpRate", unit.smp_rate)?;
    word::number(out, "smpMod", unit.smp_mod)?;
    word::optional(out, "gmIdentity", bytes, unit.gm_identity)?;
    write!(out, " data=")?;
    for channel in 0..unit.channels() {
        if let Some(sample) = unit.sample(bytes, channel) {
            write!(out, "{}:{},", sample.value, sample.quality)?;
        }
    }
    Ok(())
}

/// Prints what a payload says.
pub fn print<W: Write>(out: &mut W, bytes: &[u8], payload: Span) -> io::Result<()> {
    if payload.from > payload.to || payload.to > bytes.len() {
        return Ok(());
    }
    match read_sampled_values(bytes, payload.from, payload.to) {
        Ok(frame) => {
            write!(
                out,
                " sv appid={} reserved1={} reserved2={}",
                frame.app_id, frame.reserved_1, frame.reserved_2
            )?;
            for unit in frame.asdus() {
                print_unit(out, bytes, unit)?;
            }
            writeln!(out, "")
        }
        Err(fault) => writeln!(out, " fault {} {:?}", fault.at, fault.wrong),
    }
}
