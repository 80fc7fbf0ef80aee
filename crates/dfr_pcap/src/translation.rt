//! A capture in either form that comes in pieces, as libpcap writes it.

ghost use Rattle.std.specs.Prelude.{◌≡◌};
ghost use Rattle.dfr_pcap.specs.declared.translation.Form.TheVariants as forms;
ghost use Rattle.dfr_pcap.specs.Translations as spec;

use crate::blocks::{Blocks, CLASSIC_HEAD, TranslateFault};
use crate::numbers::high_first_4;
use std::alloc::{Allocator, Global};
use std::marker::Model;

/// The form of a capture.
#[derive(Clone, Copy)]
pub enum Form {
    /// Fewer than four bytes came.
    Unknown,
    /// As libpcap writes it, or no capture: it is given as it comes.
    Classic,
    /// In the form pcapng: it is given as libpcap would write it.
    Blocks,
}

/// Makes the capture of libpcap that has the packets of a capture in either form.
#[derive(Drop)]
pub struct Translation<A: Allocator = Global> {
    form: Form,
    blocks: Blocks<A>,
}

impl<A: Allocator> Model for Translation<A> {
    ghost use Rattle.dfr_pcap.specs.Translations.{TranslationParts};

    ghost Value = { TranslationParts };

    ghost view = { λ t. record { form = t.form; blocks = t.blocks } };
}

/// The form of a capture, by its first four bytes.
#[tactic(auto, unfolding(crate::specs::Translations::form_of))]
fn form_of(came: &[u8]) -> Form
    ensures { result ≡ spec.form_of came.now }
{
    if came.len() < 4 {
        Form::Unknown
    } else if high_first_4(came, 0) == 0x0A0D_0D0A {
        Form::Blocks
    } else {
        Form::Classic
    }
}

/// Writes bytes as they are.
fn pass_on<A: Allocator>(out: &mut Vec<u8, A>, bytes: &[u8]) -> Result<(), TranslateFault>
    ensures { spec.PassesOn result bytes.now out.old.items out.new.items }
{
    match out.extend_from_slice(bytes) {
        Ok(()) => Ok(()),
        Err(_) => Err(TranslateFault::Memory),
    }
}

/// Begins a capture in the form of libpcap, or none.
fn begin_classic<A: Allocator + Copy>(
    blocks: &Blocks<A>,
    out: &mut Vec<u8, A>,
) -> Result<(), TranslateFault>
    requires { forms.Classic ≡ spec.form_of blocks.now.bytes }
    ensures takes { spec.BeginsUpTo result forms.Classic blocks.now blocks.now out.old.items out.new.items }
    ensures stops { spec.StopsAt result (spec.parts forms.Classic blocks.now) }
{
    pass_on(out, blocks.left())
}

/// Begins a capture in the form pcapng.
fn begin_blocks<A: Allocator + Copy>(
    blocks: &mut Blocks<A>,
    out: &mut Vec<u8, A>,
) -> Result<(), TranslateFault>
    requires { forms.Blocks ≡ spec.form_of blocks.old.bytes }
    ensures takes { spec.BeginsUpTo result forms.Blocks blocks.old blocks.new out.old.items out.new.items }
    ensures stops { spec.StopsAt result (spec.parts forms.Blocks blocks.new) }
{
    match pass_on(out, &CLASSIC_HEAD) {
        Ok(()) => blocks.go_on(out),
        Err(fault) => Err(fault),
    }
}

/// Begins a capture, once its form is known.
fn begin<A: Allocator + Copy>(
    form: Form,
    blocks: &mut Blocks<A>,
    out: &mut Vec<u8, A>,
) -> Result<(), TranslateFault>
    requires { form ≡ spec.form_of blocks.old.bytes }
    ensures takes { spec.BeginsUpTo result form blocks.old blocks.new out.old.items out.new.items }
    ensures stops { spec.StopsAt result (spec.parts form blocks.new) }
{
    match form {
        Form::Unknown => Ok(()),
        Form::Classic => begin_classic(blocks, out),
        Form::Blocks => begin_blocks(blocks, out),
    }
}

/// Goes on in the form pcapng.
fn go_on<A: Allocator + Copy>(
    blocks: &mut Blocks<A>,
    piece: &[u8],
    out: &mut Vec<u8, A>,
) -> Result<(), TranslateFault>
    ensures takes { spec.TakesUpTo piece.now result (spec.parts forms.Blocks blocks.old) (spec.parts forms.Blocks blocks.new) out.old.items out.new.items }
    ensures stops { spec.StopsAt result (spec.parts forms.Blocks blocks.new) }
{
    match blocks.add(piece) {
        Ok(()) => blocks.go_on(out),
        Err(fault) => Err(fault),
    }
}

impl<A: Allocator + Copy> Translation<A> {
    ghost use Rattle.std.specs.Prelude.{◌≡◌, [], length};
    ghost use Rattle.dfr_pcap.specs.declared.translation.Form.TheVariants as forms;
    ghost use Rattle.dfr_pcap.specs.Translations as spec;

    /// Before the first piece.
    #[tactic(auto, using(crate::proofs::Translated::none_yet))]
    pub fn new(alloc: A) -> Translation<A>
        ensures { spec.IsSoFar [] [] result }
    {
        Translation {
            form: Form::Unknown,
            blocks: Blocks::new(alloc),
        }
    }

    /// Takes in the first pieces, up to the one that says the form.
    fn take_first(&mut self, piece: &[u8], out: &mut Vec<u8, A>) -> Result<(), TranslateFault>
        requires { self.old.form ≡ forms.Unknown }
        ensures takes { spec.TakesUpTo piece.now result self.old self.new out.old.items out.new.items }
        ensures stops { spec.StopsAt result self.new }
    {
        match self.blocks.add(piece) {
            Ok(()) => {
                let form = form_of(self.blocks.left());
                self.form = form;
                begin(form, &mut self.blocks, out)
            }
            Err(fault) => Err(fault),
        }
    }

    /// Takes in a piece: what is given of the capture grows by what the definitions over all its bytes
    /// have more with the packets that are whole with it, up to the first fault. If memory ran out,
    /// nothing is promised.
    pub fn take_in(&mut self, piece: &[u8], out: &mut Vec<u8, A>) -> Result<(), TranslateFault>
        ensures takes { spec.TakesUpTo piece.now result self.old self.new out.old.items out.new.items }
        ensures stops { spec.StopsAt result self.new }
    {
        match self.form {
            Form::Unknown => self.take_first(piece, out),
            Form::Classic => pass_on(out, piece),
            Form::Blocks => go_on(&mut self.blocks, piece, out),
        }
    }

    /// Whether bytes came that are no whole block, or less than a form.
    pub fn is_within(&self) -> bool
        ensures { result ≡ spec.is_within self.now }
    {
        match self.form {
            Form::Unknown => !self.blocks.left().is_empty(),
            Form::Classic => false,
            Form::Blocks => self.blocks.is_within(),
        }
    }
}
