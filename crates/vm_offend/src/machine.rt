ghost use Rattle.std.specs.Prelude.{◌≡◌, ◌<◌, ℕ, List, length, None, Some, IfSome, option_map, unwrap_or, ◌+◌, ◌*◌, ◌≤◌, slice_index};
ghost use Rattle.card_verify.specs.Answers.{AreAccepted};
ghost use Rattle.vm_store.specs.declared.cell.Cell.{Cell};
ghost use Rattle.vm_store.specs.Cells.{tagged};
ghost use Rattle.vm_store.specs.State.{State};
ghost use Rattle.vm_defend.specs.Reading.{static_value, array_kind, array_length, array_value};
ghost use Rattle.vm_defend.specs.Safe.{IsPlainEnding};
ghost use Rattle.vm_step.specs.declared.ending.Plain.TheVariants.{Spent};
ghost use Rattle.vm_step.specs.Raising.{Outcome};
ghost use Rattle.vm_offend.specs.Words.{AreObjectsLaid, window, frames_in};
ghost use Rattle.vm_offend.specs.Sized.{static_cells};
ghost use Rattle.vm_offend.specs.Reads.{AreObjectsOf, AreStaticsOf, AreFramesLaid};
ghost use Rattle.vm_offend.specs.Held.{state_of};
ghost use Rattle.law_chains.specs.FrameWords.{live_words, frame_words};
ghost use Rattle.vm_step.specs.declared.ending.Ending.TheVariants as endings;

use crate::reading::{length_of, number_at, numbers_of, value_at};
use crate::{Counts, WordStore, storing, window};
use card_verify::Accepted;
use jc_base::{Ty, World};
use law_erasure::words_run_alike;
use law_sound::typed_code_never_fails;
use vm_check::Machine as Tested;
use vm_defend::{slots_are_inside, starts_are_shaped};
use vm_step::{Ending, Plain, Value, runs_are_runs_of_steps, runs_exist};
use vm_store::{TaggedStore, states_erase};

/// A run of verified code in memory that a caller lends: how many frames, objects and cells of objects there are, and how
/// it ended, once it has. The memory is handed to each call beside it: the frames in `ram`, the objects in `heap`, and the
/// cells of the static fields.
#[derive(Clone, Copy)]
pub struct Machine {
    counts: Counts,
    ending: Option<Plain>,
}

impl Machine {
    ghost use Rattle.vm_offend.specs.Held.{IsRunOf, IsOutcomeOfRun, AreWordsOf, Follows};

    /// A run before its first step.
    pub(crate) fn of(counts: Counts) -> Machine
        ensures counts { result.counts ≡ counts }
        ensures ending { result.ending ≡ None }
    {
        Machine {
            counts,
            ending: None,
        }
    }

    /// Takes at most so many steps of a run that was begun in the accepted world. After `Spent` it may go on; after another
    /// ending it takes no step, and answers that ending again. It answers as the machine that tests all does, and leaves the
    /// words of what that one leaves.
    pub fn run(
        &mut self,
        accepted: &Accepted<'_>,
        ram: &mut [u16],
        heap: &mut [u16],
        statics: &mut [u16],
        budget: u64,
    ) -> Plain
        requires { IsRunOf accepted.now self.old ram.old heap.old statics.old }
        ensures follows { (o : Outcome Cell)
            → IsOutcomeOfRun accepted.now o
            → AreWordsOf accepted.now self.old ram.old heap.old statics.old o
            → Follows accepted.now budget o self.new ram.new heap.new statics.new result }
        ensures run { IsRunOf accepted.now self.new ram.new heap.new statics.new }
    {
        match self.ending {
            Some(ending) => ending,
            None => self.go_on(accepted.world(), ram, heap, statics, budget),
        }
    }

    /// The same of a run that has not ended.
    fn go_on(
        &mut self,
        world: &World<'_>,
        ram: &mut [u16],
        heap: &mut [u16],
        statics: &mut [u16],
        budget: u64,
    ) -> Plain
        requires accepted { AreAccepted world.now }
        requires run { IsRunOf world.now self.old ram.old heap.old statics.old }
        requires going { self.old.ending ≡ None }
        ensures follows { (o : Outcome Cell)
            → IsOutcomeOfRun world.now o
            → AreWordsOf world.now self.old ram.old heap.old statics.old o
            → Follows world.now budget o self.new ram.new heap.new statics.new result }
        ensures run { IsRunOf world.now self.new ram.new heap.new statics.new }
    {
        typed_code_never_fails(world);
        words_run_alike(world);
        runs_are_runs_of_steps(world);
        runs_exist(world);
        starts_are_shaped(world);
        TaggedStore::tests_suffice(world);
        let mut store = WordStore::over(world, ram, heap, statics, self.counts);
        let ending = storing::run(&mut store, world, budget);
        self.counts = store.counts();
        self.ending = plain(ending);
        self.ending.unwrap_or(Plain::Spent)
    }

    /// The value of a static field, by its number in the world.
    pub fn static_value(&self, accepted: &Accepted<'_>, statics: &[u16], n: u16) -> Value
        requires sized { length statics.now ≡ static_cells accepted.now }
        requires field { n < length accepted.now.statics }
        ensures { (s : State Cell) → AreStaticsOf statics.now s → static_value tagged accepted.now n s ≡ Some result }
    {
        field_value(accepted.world(), statics, n)
    }

    /// The type of the array of a handle; none where this is no array of booleans, bytes, shorts or ints.
    pub fn array_kind(&self, _accepted: &Accepted<'_>, heap: &[u16], handle: u16) -> Option<Ty>
        requires { AreObjectsLaid heap.now self.now.counts }
        ensures { (s : State Cell) → AreObjectsOf heap.now self.now.counts s → array_kind s handle ≡ result }
    {
        numbers_of(heap, self.counts, handle)
    }

    /// How many elements such an array has.
    pub fn array_length(&self, _accepted: &Accepted<'_>, heap: &[u16], handle: u16) -> Option<u16>
        requires { AreObjectsLaid heap.now self.now.counts }
        ensures { (s : State Cell) → AreObjectsOf heap.now self.now.counts s → array_length s handle ≡ result }
    {
        length_of(heap, self.counts, handle)
    }

    /// The number in an element of such an array; none outside of it.
    pub fn array_value(
        &self,
        accepted: &Accepted<'_>,
        heap: &[u16],
        handle: u16,
        element: u16,
    ) -> Option<i32>
        requires { AreObjectsLaid heap.now self.now.counts }
        ensures { (s : State Cell) → AreObjectsOf heap.now self.now.counts s → array_value tagged s handle element ≡ result }
    {
        states_erase(accepted.world());
        number_at(heap, self.counts, handle, element)
    }

    /// How many words the live frames take: three of each frame's own, its registers and the room of its operand stack
    /// (JCVM 2.2, section 3.5).
    pub fn live_words(&self, accepted: &Accepted<'_>, ram: &[u16]) -> u32
        requires { AreFramesLaid ram.now self.now.counts }
        ensures { (heap statics : List ℕ) (o : Outcome Cell)
            → AreWordsOf accepted.now self.now ram.now heap statics o
            → live_words accepted.now (state_of o).frames ≡ result }
    {
        live_words(accepted.world(), ram, self.counts)
    }
}

/// The value of a static field in the words of all.
fn field_value(world: &World<'_>, statics: &[u16], n: u16) -> Value
    requires sized { length statics.now ≡ static_cells world.now }
    requires field { n < length world.now.statics }
    ensures { (s : State Cell) → AreStaticsOf statics.now s → static_value tagged world.now n s ≡ Some result }
{
    slots_are_inside(world);
    states_erase(world);
    let field = world.static_field(n);
    value_at(statics, field.slot, field.kind)
}

/// The ending, which is no fault.
fn plain(ending: Option<Ending>) -> Option<Plain>
    requires { IfSome ending IsPlainEnding }
    ensures { option_map endings.Plain result ≡ ending }
{
    match ending {
        None => None,
        Some(Ending::Plain(plain)) => Some(plain),
        Some(Ending::Faulted(_)) => unreachable!(),
    }
}

/// The words of the live frames together.
pub(crate) fn live_words(world: &World<'_>, ram: &[u16], counts: Counts) -> u32
    requires { AreFramesLaid ram.now counts }
    ensures { result ≡ live_words world.now (frames_in world.now.methods ram.now counts.frames) }
{
    let mut words = 0;
    'frames: for n in 0..counts.frames {
        words += frame_words(world, method_of(ram, n));
    }
    words
}

/// The method of a frame.
fn method_of(ram: &[u16], n: u16) -> u16
    requires { 513 * n + 513 ≤ length ram.now }
    ensures { result ≡ slice_index (window ram.now n) 0 }
{
    let from = window::WORDS * usize::from(n);
    let words = &ram[from..from + window::WORDS];
    words[0]
}

/// The words of a frame of a method.
fn frame_words(world: &World<'_>, method: u16) -> u32
    ensures is { result ≡ frame_words world.now method }
    ensures most { result ≤ 768 }
{
    if method < world.method_count() {
        let method = world.method(method);
        words_of(method.nargs, method.max_locals, method.max_stack)
    } else {
        0
    }
}

/// The words of a frame with so many argument words, other registers and cells of the operand stack.
fn words_of(nargs: u8, max_locals: u8, max_stack: u8) -> u32
    ensures is { result ≡ 3 + nargs + max_locals + max_stack }
    ensures most { result ≤ 768 }
{
    3 + u32::from(nargs) + u32::from(max_locals) + u32::from(max_stack)
}
