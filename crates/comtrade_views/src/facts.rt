//! What the line of a record tells.

ghost use Rattle.std.specs.Prelude.{◌≡◌, ◌-ℤ◌, IfOk, length};
ghost use Rattle.comtrade_views.specs.Facts as spec;

use crate::currents::{greatest_current, nominal_of};
use crate::cycles::amperes_of;
use crate::number::{scale_of, value_of};
use crate::times::times_of;
use comtrade_analysis::event_counts_of;
use comtrade_format::{File, Head};
use comtrade_io::ToolFault;
use comtrade_values::{Decimal, Exact, Memory};
use std::alloc::{Allocator, Global};

/// The current that is greatest by the nominal current of its channel.
#[derive(Debug, Drop)]
pub(crate) struct Greatest<A: Allocator = Global> {
    pub(crate) id: Vec<u8, A>,
    /// Its value to six digits, in the unit of the channel.
    pub(crate) value: Exact,
    pub(crate) unit: Vec<u8, A>,
    /// Whether the unit is another one than A, as kA.
    pub(crate) is_scaled: bool,
    /// In A.
    pub(crate) nominal: Decimal,
}

/// What the line of a record tells.
#[derive(Debug, Drop)]
pub(crate) struct Facts<A: Allocator = Global> {
    /// The trigger, in microseconds since 1970-01-01 00:00:00.
    pub(crate) trigger: i64,
    /// Nanoseconds from the first row to the last one, if that is known.
    pub(crate) length: Option<i128>,
    /// The first rate; None where only stamps give the times of rows.
    pub(crate) rate: Option<Decimal>,
    /// The number of analogue channels, of status channels, and of those that change.
    pub(crate) analog: usize,
    pub(crate) status: usize,
    pub(crate) changed: usize,
    pub(crate) greatest: Option<Greatest<A>>,
    pub(crate) station: Vec<u8, A>,
    pub(crate) device: Vec<u8, A>,
}

/// The time from one instant to another.
fn span_of(first: i64, last: i64) -> i128
    ensures { result ≡ last -ℤ first }
{
    last as i128 - first as i128
}

/// The time from the first row to the last one.
fn length_of(times: &[Option<i64>]) -> Option<i128>
    ensures { result ≡ spec.length_of times.now }
{
    let first = (*times.first()?)?;
    let last = (*times.last()?)?;
    Some(span_of(first, last))
}

/// The first rate, where the rates give the times of rows.
fn rate_of<A: Allocator>(head: &Head<A>) -> Option<Decimal>
    ensures { result ≡ spec.rate_of head.now }
{
    match head.rates.items().first() {
        Some(rate) if head.nrates != 0 => Some(rate.samp),
        _ => None,
    }
}

/// How many of these numbers of changes are not 0.
fn count_changed(counts: &[usize]) -> usize
    ensures { result ≡ spec.count_changed counts.now }
{
    counts.iter().filter(|count| **count != 0).count()
}

/// How many status channels change.
fn changed_of<A: Allocator + Copy>(alloc: A, file: &File<A>) -> Result<usize, Memory>
    ensures { IfOk result (spec.IsChanged file.now) }
{
    let contacts = file.head.status.items().len();
    let counts = event_counts_of(alloc, file.rows.items(), contacts)?;
    Ok(count_changed(&counts))
}

/// The greatest current, if the record has one.
fn greatest_of<A: Allocator + Copy>(
    alloc: A,
    file: &File<A>,
) -> Result<Option<Greatest<A>>, ToolFault> {
    let Some(current) = greatest_current(alloc, file)? else {
        return Ok(None);
    };
    let Some(channel) = file.head.analog.items().get(current.place) else {
        return Ok(None);
    };
    let unit = channel.unit.items();
    Ok(Some(Greatest {
        id: Vec::from_slice(alloc, channel.id.items())?,
        value: value_of(scale_of(channel), current.sample).to_six_digits(),
        unit: Vec::from_slice(alloc, unit)?,
        is_scaled: amperes_of(unit) != 1.0,
        nominal: nominal_of(channel),
    }))
}

/// What the line of a record tells.
pub(crate) fn facts_of<A: Allocator + Copy>(alloc: A, file: &File<A>) -> Result<Facts<A>, ToolFault>
    ensures trigger { IfOk result (λ facts. facts.trigger ≡ file.now.head.trigger) }
    ensures rate { IfOk result (λ facts. facts.rate ≡ spec.rate_of file.now.head) }
    ensures analog { IfOk result (λ facts. facts.analog ≡ length file.now.head.analog) }
    ensures status { IfOk result (λ facts. facts.status ≡ length file.now.head.status) }
    ensures changed { IfOk result (λ facts. spec.IsChanged file.now facts.changed) }
    ensures station { IfOk result (λ facts. facts.station.items ≡ file.now.head.station) }
    ensures device { IfOk result (λ facts. facts.device.items ≡ file.now.head.device) }
{
    let head = &file.head;
    Ok(Facts {
        trigger: head.trigger,
        length: length_of(&times_of(alloc, file)?),
        rate: rate_of(head),
        analog: head.analog.items().len(),
        status: head.status.items().len(),
        changed: changed_of(alloc, file)?,
        greatest: greatest_of(alloc, file)?,
        station: Vec::from_slice(alloc, head.station.items())?,
        device: Vec::from_slice(alloc, head.device.items())?,
    })
}
