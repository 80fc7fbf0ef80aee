//! What a pair of files contains, as JSON.

use crate::channel_json::{AnalogMembers, StatusMembers, analog_members, status_members};
use crate::instant::put_instant;
use crate::json::{plain_text_of, put_json, text_of};
use crate::json_number::{JsonNumber, number_json};
use comtrade_format::{File, Head};
use comtrade_io::{ToolFault, kind_name};
use comtrade_values::Memory;
use serde::Serialize;
use std::alloc::{AllocError, Allocator, Global};

/// A rate, and the number of its last row.
#[derive(Drop, Serialize)]
struct RateMembers {
    rate: JsonNumber,
    last_row: u64,
}

/// What a pair contains.
#[derive(Drop, Serialize)]
struct Members {
    station: String,
    device: String,
    first_row: String,
    trigger: String,
    frequency: JsonNumber,
    rates: Vec<RateMembers>,
    data: String,
    rows: u64,
    stamp_us: JsonNumber,
    analog: Vec<AnalogMembers>,
    status: Vec<StatusMembers>,
}

/// An instant as the value of a member.
pub(crate) fn instant_text(alloc: Global, instant: i128) -> Result<String, AllocError> {
    let mut text = Vec::new(alloc);
    put_instant(&mut text, instant)?;
    plain_text_of(alloc, &text)
}

/// The rates, as the file gives them: none where the stamps give the times of rows.
fn rates_of<A: Allocator>(alloc: Global, head: &Head<A>) -> Result<Vec<RateMembers>, Memory> {
    let mut list = Vec::new(alloc);
    if head.nrates != 0 {
        for rate in head.rates.items() {
            list.push(RateMembers {
                rate: number_json(alloc, rate.samp)?,
                last_row: rate.endsamp,
            })?;
        }
    }
    Ok(list)
}

/// What a file contains, as a JSON object. The rows were taken at these times, in nanoseconds since
/// the trigger.
pub fn show_json<A: Allocator + Copy>(
    alloc: Global,
    lists: A,
    file: &File<A>,
    times: &[Option<i64>],
) -> Result<Vec<u8>, ToolFault> {
    let head = &file.head;
    let members = Members {
        station: text_of(alloc, head.station.items())?,
        device: text_of(alloc, head.device.items())?,
        first_row: instant_text(alloc, head.first as i128)?,
        trigger: instant_text(alloc, head.trigger as i128)?,
        frequency: number_json(alloc, head.line_freq)?,
        rates: rates_of(alloc, head)?,
        data: String::from_str(alloc, kind_name(head.kind))?,
        rows: file.rows.items().len() as u64,
        stamp_us: number_json(alloc, head.timemult)?,
        analog: analog_members(alloc, lists, file, times)?,
        status: status_members(alloc, lists, file, times)?,
    };
    let mut out = Vec::new(alloc);
    put_json(alloc, &mut out, &members)?;
    Ok(out)
}
