//! The correlation of the last samples with two waves.

ghost use Rattle.std.specs.Prelude.{◌≡◌, ◌≤◌, ◌<◌, ◌^◌, ◌+ℤ◌, ◌-ℤ◌, ◌*ℤ◌, unsigned_abs, length, slice_index_or};
ghost use Rattle.dfr_detect.specs.Phasors as spec;
ghost use Rattle.dfr_detect.specs.Sums.{AreSmall};

use crate::Sample;
use crate::other::{either, other_moved, other_nothing};
use crate::ring::Ring;
use crate::turns::{Pair, Shape, Weights, table};
use comtrade_values::{Items, Memory};
use std::alloc::{Allocator, Global};
use std::marker::Model;

/// The parts of a phasor, in 16384ths.
#[derive(Clone, Copy, Debug)]
pub(crate) struct Phasor {
    pub(crate) real: i128,
    pub(crate) imaginary: i128,
}

/// The correlation of the last samples with two waves of whole periods in as many samples. It is
/// kept up to date, since the sample that leaves has the number of the one that comes. The second
/// phasor is none where the waves are the same.
#[derive(Drop)]
pub(crate) struct Waves<A: Allocator = Global> {
    table: Items<Pair, A>,
    ring: Ring<Sample, A>,
    first: Shape,
    other: Shape,
    number: usize,
    one: Phasor,
    two: Option<Phasor>,
}

impl<A: Allocator> Model for Waves<A> {
    ghost use Rattle.dfr_detect.specs.Phasors.{KeptWaves, waves_by, IsWaves};

    ghost Value = { KeptWaves };

    ghost view = { λ a. waves_by a.ring.capacity a.first a.other a.ring.items a.number };

    ghost invariant = { λ a. IsWaves a.ring.capacity a.first a.other a.ring.items a.number a.table a.one a.two };
}

/// What stands for a sample where none leaves.
const NO_SAMPLE: Sample = Sample { a: 0, b: 0, c: 0 };

/// No sample's share of a phasor.
pub(crate) const NOTHING: Phasor = Phasor {
    real: 0,
    imaginary: 0,
};

/// The number after this one.
#[inline(always)]
fn after(scans: usize, number: usize) -> usize
    requires { number < scans }
    ensures value { result ≡ spec.after scans number }
    ensures bound { result < scans }
{
    if number + 1 == scans { 0 } else { number + 1 }
}

/// The coefficients of the sample with this number.
#[inline(always)]
fn pair_at(table: &[Pair], number: usize) -> Pair
    requires { number < length table.now }
    ensures { result ≡ slice_index_or table.now number result }
{
    table[number]
}

/// The sample that leaves, if one does.
#[inline(always)]
fn gone(oldest: Option<Sample>) -> Sample
    ensures { result ≡ spec.gone oldest }
{
    match oldest {
        Some(x) => x,
        None => NO_SAMPLE,
    }
}

/// The difference of two samples.
#[inline(always)]
fn minus(x: i64, gone: i64) -> i64
    requires x { unsigned_abs x ≤ 2 ^ 39 }
    requires gone { unsigned_abs gone ≤ 2 ^ 39 }
    ensures { result ≡ x -ℤ gone }
{
    x - gone
}

/// How much comes with one sample in place of another.
#[inline(always)]
fn less(x: Sample, gone: Sample) -> Sample
    requires x { AreSmall x }
    requires gone { AreSmall gone }
    ensures { result ≡ spec.less x gone }
{
    Sample {
        a: minus(x.a, gone.a),
        b: minus(x.b, gone.b),
        c: minus(x.c, gone.c),
    }
}

/// A change times a coefficient.
#[inline(always)]
fn product(weight: i32, x: i64) -> i64
    requires weight { unsigned_abs weight ≤ 2 ^ 14 }
    requires x { unsigned_abs x ≤ 2 ^ 40 }
    ensures value { result ≡ weight *ℤ x }
    ensures bound { unsigned_abs result ≤ 2 ^ 54 }
{
    i64::from(weight) * x
}

/// The changes of three phases times their coefficients.
#[inline(always)]
fn weighed(a: i32, b: i32, c: i32, x: Sample) -> i64
    requires a { unsigned_abs a ≤ 2 ^ 14 }
    requires b { unsigned_abs b ≤ 2 ^ 14 }
    requires c { unsigned_abs c ≤ 2 ^ 14 }
    requires x { spec.IsChange x }
    ensures value { result ≡ spec.weighed a b c x }
    ensures bound { unsigned_abs result ≤ 2 ^ 56 }
{
    product(a, x.a) + product(b, x.b) + product(c, x.c)
}

/// The part of a change along the cosine.
#[inline(always)]
fn real_of(weights: Weights, change: Sample) -> i64
    requires weights { spec.AreWeights weights }
    requires change { spec.IsChange change }
    ensures value { result ≡ spec.real_of weights change }
    ensures bound { unsigned_abs result ≤ 2 ^ 56 }
{
    weighed(weights.a.cosine, weights.b.cosine, weights.c.cosine, change)
}

/// The part of a change along the sine.
#[inline(always)]
fn imaginary_of(weights: Weights, change: Sample) -> i64
    requires weights { spec.AreWeights weights }
    requires change { spec.IsChange change }
    ensures value { result ≡ spec.imaginary_of weights change }
    ensures bound { unsigned_abs result ≤ 2 ^ 56 }
{
    weighed(weights.a.sine, weights.b.sine, weights.c.sine, change)
}

/// A part of a phasor after a change.
#[inline(always)]
fn plus(part: i128, change: i64) -> i128
    requires part { unsigned_abs part ≤ 2 ^ 67 }
    requires change { unsigned_abs change ≤ 2 ^ 56 }
    ensures { result ≡ part +ℤ change }
{
    part + i128::from(change)
}

/// A phasor after this change of a sample.
#[inline(always)]
pub(crate) fn moved(phasor: Phasor, weights: Weights, change: Sample) -> Phasor
    requires real { unsigned_abs phasor.real ≤ 2 ^ 67 }
    requires imaginary { unsigned_abs phasor.imaginary ≤ 2 ^ 67 }
    requires weights { spec.AreWeights weights }
    requires change { spec.IsChange change }
    ensures { result ≡ spec.moved phasor weights change }
{
    Phasor {
        real: plus(phasor.real, real_of(weights, change)),
        imaginary: plus(phasor.imaginary, imaginary_of(weights, change)),
    }
}

impl<A: Allocator> Waves<A> {
    ghost use Rattle.std.specs.Prelude.{◌≡◌, ◌≤◌, ◌^◌, ◌==◌, [], length, IfOk};
    ghost use Rattle.dfr_detect.specs.Sums.{AreSmall};
    ghost use Rattle.dfr_detect.specs.Phasors.{waves, waves_after, waves_gone, power_of};

    /// Two waves over so many scans, of no sample.
    pub(crate) fn with_scans(
        alloc: A,
        scans: usize,
        first: Shape,
        other: Shape,
    ) -> Result<Waves<A>, Memory>
    where
        A: Copy,
        requires some { 1 ≤ scans }
        requires few { scans ≤ 2 ^ 12 }
        ensures { IfOk result (λ made. made ≡ waves scans first other []) }
    {
        let table = Items::of(table(alloc, scans as u64, first, other)?);
        let ring = Ring::with_capacity(alloc, scans, NO_SAMPLE)?;
        Ok(Waves {
            table,
            ring,
            first,
            other,
            number: scans - 1,
            one: NOTHING,
            two: other_nothing(first, other),
        })
    }

    /// Takes in a sample. The oldest leaves if all places are filled.
    #[inline(always)]
    pub(crate) fn push(&mut self, x: Sample)
        requires { AreSmall x }
        ensures { self.new ≡ waves_after self.old x }
    {
        self.number = after(self.ring.capacity(), self.number);
        let pair = pair_at(self.table.items(), self.number);
        let oldest = self.ring.push_front(x);
        let change = less(x, gone(oldest));
        self.one = moved(self.one, pair.first, change);
        self.two = other_moved(self.two, pair.other, change);
    }

    /// Drops all samples.
    pub(crate) fn clear(&mut self)
        ensures { self.new ≡ waves_gone self.old }
    {
        self.ring.clear();
        self.number = self.ring.capacity() - 1;
        self.one = NOTHING;
        self.two = other_nothing(self.first, self.other);
    }

    /// Over how many scans the waves are taken.
    #[inline(always)]
    pub(crate) fn scans(&self) -> usize
        ensures value { result ≡ self.now.scans }
        ensures bound { result ≤ 2 ^ 12 }
    {
        self.ring.capacity()
    }

    /// Whether all places are filled.
    #[inline(always)]
    pub(crate) fn is_full(&self) -> bool
        ensures { result ≡ (length self.now.samples == self.now.scans) }
    {
        self.ring.is_full()
    }

    /// The square of the magnitude of the first wave.
    #[inline(always)]
    pub(crate) fn first_power(&self) -> u128
        ensures value { result ≡ power_of self.now.scans self.now.first self.now.number self.now.samples }
        ensures bound { result ≤ 2 ^ 107 }
    {
        power(self.one)
    }

    /// The square of the magnitude of the other wave.
    #[inline(always)]
    pub(crate) fn other_power(&self) -> u128
        ensures value { result ≡ power_of self.now.scans self.now.other self.now.number self.now.samples }
        ensures bound { result ≤ 2 ^ 107 }
    {
        power(either(self.one, self.two))
    }
}

/// A part of a phasor, in samples.
#[inline(always)]
fn part(x: i128) -> u64
    requires { unsigned_abs x ≤ 2 ^ 67 }
    ensures value { result ≡ spec.part x }
    ensures bound { result ≤ 2 ^ 53 }
{
    (x.unsigned_abs() / 16_384) as u64
}

/// The square of a magnitude.
#[inline(always)]
fn power(phasor: Phasor) -> u128
    requires real { unsigned_abs phasor.real ≤ 2 ^ 67 }
    requires imaginary { unsigned_abs phasor.imaginary ≤ 2 ^ 67 }
    ensures value { result ≡ spec.power phasor.real phasor.imaginary }
    ensures bound { result ≤ 2 ^ 107 }
{
    let (real, imaginary) = (
        u128::from(part(phasor.real)),
        u128::from(part(phasor.imaginary)),
    );
    real * real + imaginary * imaginary
}
