ghost use Rattle.std.specs.Prelude.{ℕ, false, slice_index_or, ◌≡◌, ◌≤◌, ◌<◌, ◌+◌, ◌++◌, All, length, map, flat_map, IfSome, IsTrue, Some};
ghost use Rattle.std.specs.Prelude.{None};
ghost use Rattle.std.specs.List.{range_with_len};
ghost use Rattle.jc_classes.specs.Outline.{is_on_chain};
ghost use Rattle.jc_resolve.specs.Fault.{link_place};
ghost use Rattle.first_fault.specs.Least.{least_of, least_from, refused};
ghost use Rattle.jc_classes.specs.KnownLines.{HaveSuperclasses};
ghost use Rattle.jc_classes.specs.Layout.{layouts};
ghost use Rattle.jc_classes.specs.Slots.{HasShortLists};
ghost use Rattle.jc_classes.specs.Growth.{is_own, AddsOwn, GrowsLists};
ghost use Rattle.jc_classes.specs.TableConditions.{entries_from, entries_in, hole_fault, class_numbers};

use crate::Lineage;
use crate::made_list::{MadeList, public_list, visible_list};
use crate::overlay::{ClassLayout, reach};
use crate::signatures::method_in;
use jc_base::Methods;
use jc_resolve::{LinkFault, NamedClasses, lesser, refuse};

/// A class with a mark for each class that is one of its superclasses or the class itself.
#[derive(Clone, Copy)]
struct Line<'a> {
    lineage: &'a Lineage,
    class: u16,
    marks: &'a [bool],
    ghost marked: { marks.now ≡ map (λ d. is_on_chain lineage.now d class) (range_with_len 0 (length lineage.now.lines)) },
}

/// Marks a class and its superclasses, where nothing is marked.
#[tactic(auto, using(crate::proofs::Marks::marking))]
fn mark(lineage: &Lineage, c: u16, marks: &mut [bool])
    requires known { c < length lineage.now.lines }
    requires room { length marks.now ≡ length lineage.now.lines }
    requires none { (k : ℕ) → k < length marks.now → slice_index_or marks.now k false ≡ false }
    ensures is { marks.new ≡ map (λ d. is_on_chain lineage.now d c) (range_with_len 0 (length lineage.now.lines)) }
    ensures room { length marks.new ≡ length lineage.now.lines }
{
    let mut above = Some(c);
    'climb: while let Some(a) = above {
        marks[a as usize] = true;
        above = lineage.parent(a);
    }
}

/// Takes the marks of a class and its superclasses away.
#[tactic(auto, using(crate::proofs::Marks::unmarking))]
fn unmark(lineage: &Lineage, c: u16, marks: &mut [bool])
    requires known { c < length lineage.now.lines }
    requires marked { marks.now ≡ map (λ d. is_on_chain lineage.now d c) (range_with_len 0 (length lineage.now.lines)) }
    ensures room { length marks.new ≡ length lineage.now.lines }
    ensures none { (k : ℕ) → k < length marks.new → slice_index_or marks.new k false ≡ false }
{
    let mut above = Some(c);
    'climb: while let Some(a) = above {
        marks[a as usize] = false;
        above = lineage.parent(a);
    }
}

impl<'a> Line<'a> {
    /// Whether a class is the class of the line or one of its superclasses.
    #[tactic(auto, using(crate::proofs::Marks::reading))]
    #[inline(always)]
    fn has(self, d: u16) -> bool
        requires { d < length self.lineage.now.lines }
        ensures { result ≡ is_on_chain self.entry.lineage.now d self.entry.class }
    {
        self.marks[d as usize]
    }

    /// What is wrong with an entry of a dispatch list of the class.
    #[tactic(auto, using(crate::proofs::Folds::class_known), unfolding(crate::specs::TableConditions::hole_fault))]
    #[inline(always)]
    fn hole_fault(self, methods: &Methods, token: u16, entry: Option<u16>) -> Option<LinkFault>
        requires known { All (λ m. m.class < length self.lineage.now.lines) methods.now }
        ensures { result
            ≡ hole_fault self.entry.lineage.now methods.now
            (record { class = self.entry.class; token = token; method = entry }) }
    {
        let stands = match method_in(methods, entry) {
            Some(method) => self.has(method.class) && (!method.is_static && !method.is_init),
            None => false,
        };
        if stands {
            None
        } else {
            Some(LinkFault::Hole(self.class, token))
        }
    }

    /// The least fault so far, when a list was seen whose first token has this name.
    #[tactic(auto, using(crate::proofs::Folds::entry_folds))]
    fn holes_in(
        self,
        methods: &Methods,
        first: u16,
        list: &[Option<u16>],
        least: Option<LinkFault>,
    ) -> Option<LinkFault>
        requires known { All (λ m. m.class < length self.lineage.now.lines) methods.now }
        requires few { first + length list.now ≤ 65535 }
        ensures { result
            ≡ least_from link_place least
            (hole_fault self.entry.lineage.now methods.now)
            (entries_from self.entry.class first list.now) }
    {
        let mut least = least;
        let mut token = first;
        'entries: for entry in list {
            least = lesser(least, self.hole_fault(methods, token, *entry));
            token += 1;
        }
        least
    }
}

/// The least fault so far, when the lists of a class were seen.
#[tactic(auto, using(crate::proofs::Folds::folds))]
fn holes_of(
    lineage: &Lineage,
    methods: &Methods,
    layout: &ClassLayout,
    c: u16,
    marks: &mut [bool],
    least: Option<LinkFault>,
) -> Option<LinkFault>
    requires class { c < length lineage.now.lines }
    requires room { length marks.now ≡ length lineage.now.lines }
    requires none { (k : ℕ) → k < length marks.now → slice_index_or marks.now k false ≡ false }
    requires known { All (λ m. m.class < length lineage.now.lines) methods.now }
    requires few { HasShortLists layout.now }
    ensures room { length marks.new ≡ length lineage.now.lines }
    ensures none { (k : ℕ) → k < length marks.new → slice_index_or marks.new k false ≡ false }
    ensures is { result
        ≡ least_from link_place least
        (hole_fault lineage.now methods.now)
        (entries_from c 0 layout.now.public ++ entries_from c 128 layout.now.visible) }
{
    mark(lineage, c, marks);
    let line = Line {
        lineage,
        class: c,
        marks: &*marks,
    };
    let public = line.holes_in(methods, 0, layout.public.as_slice(), least);
    let both = line.holes_in(methods, 128, layout.visible.as_slice(), public);
    unmark(lineage, c, marks);
    both
}

/// Whether an entry has a method of the class itself that can stand in a dispatch list.
#[inline(always)]
fn is_own(methods: &Methods, c: u16, entry: Option<u16>) -> bool
    ensures { result ≡ is_own methods.now c entry }
{
    match method_in(methods, entry) {
        Some(method) => method.class == c && (!method.is_static && !method.is_init),
        None => false,
    }
}

/// Whether a list has what it inherits, and beside it methods of the class itself alone. Outside the tokens of its
/// table it has what it inherits.
fn adds_own(methods: &Methods, c: u16, lists: MadeList<'_>) -> bool
    ensures { IsTrue result → AddsOwn methods.now c lists.entry.inherited.now lists.entry.list.now }
{
    let inherited = lists.inherited;
    let list = lists.list;
    let first = (lists.table.base as usize).min(inherited.len());
    let end = reach(lists.table).min(list.len());
    'tokens: for token in first..end {
        let entry = list[token];
        let is_inherited = token < inherited.len() && entry == inherited[token];
        if !is_inherited && !is_own(methods, c, entry) {
            return false;
        }
    }
    true
}

/// Whether the superclass of a class, where there is one, comes before it.
fn comes_after(above: Option<u16>, c: u16) -> bool
    ensures { IsTrue result → IfSome above (λ p. p < c) }
{
    above.is_none_or(|p| p < c)
}

/// Whether a class adds methods of its own alone to both of its lists.
fn grows(
    lineage: &Lineage,
    classes: &NamedClasses,
    methods: &Methods,
    all: &[ClassLayout],
    c: u16,
) -> bool
    requires known { HaveSuperclasses lineage.now classes.now }
    requires layouts { all.now ≡ layouts lineage.now classes.now }
    requires class { c < length classes.now }
    ensures { IsTrue result → GrowsLists lineage.now classes.now methods.now c }
{
    adds_own(methods, c, public_list(lineage, classes, all, c))
        && adds_own(methods, c, visible_list(lineage, classes, all, c))
}

/// The least fault so far, when the lists of a class were seen after those of the classes before. Where nothing is at
/// fault so far, what is inherited from one of those is not.
#[tactic(auto, using(crate::proofs::Folds::folds))]
fn holes_after(
    lineage: &Lineage,
    classes: &NamedClasses,
    methods: &Methods,
    all: &[ClassLayout],
    c: u16,
    marks: &mut [bool],
    least: Option<LinkFault>,
) -> Option<LinkFault>
    requires known { HaveSuperclasses lineage.now classes.now }
    requires layouts { all.now ≡ layouts lineage.now classes.now }
    requires class { c < length classes.now }
    requires methods { All (λ m. m.class < length lineage.now.lines) methods.now }
    requires room { length marks.now ≡ length lineage.now.lines }
    requires none { (k : ℕ) → k < length marks.now → slice_index_or marks.now k false ≡ false }
    requires before { least
        ≡ least_of link_place
        (hole_fault lineage.now methods.now)
        (flat_map (entries_in lineage.now classes.now) (range_with_len 0 c)) }
    ensures room { length marks.new ≡ length lineage.now.lines }
    ensures none { (k : ℕ) → k < length marks.new → slice_index_or marks.new k false ≡ false }
    ensures is { result
        ≡ least_from link_place least (hole_fault lineage.now methods.now) (entries_in lineage.now classes.now c) }
{
    let above = lineage.parent(c);
    if least.is_none() && comes_after(above, c) && grows(lineage, classes, methods, all, c) {
        None
    } else {
        holes_of(lineage, methods, &all[c as usize], c, marks, least)
    }
}

/// Each entry of each dispatch list has a method of the class or of one of its superclasses. `marks` is
/// room for a mark a class.
#[tactic(auto, using(crate::proofs::Folds::folds))]
pub(crate) fn no_holes(
    lineage: &Lineage,
    classes: &NamedClasses,
    methods: &Methods,
    all: &[ClassLayout],
    marks: &mut [bool],
) -> Result<(), LinkFault>
    requires known { HaveSuperclasses lineage.now classes.now }
    requires layouts { all.now ≡ layouts lineage.now classes.now }
    requires methods { All (λ m. m.class < length lineage.now.lines) methods.now }
    requires room { length marks.now ≡ length lineage.now.lines }
    ensures { result
        ≡ refused
        (least_of link_place
        (hole_fault lineage.now methods.now)
        (flat_map (entries_in lineage.now classes.now) (class_numbers classes.now))) }
{
    marks.fill(false);
    let mut least = None;
    'classes: for c in 0..classes.len() {
        least = holes_after(lineage, classes, methods, all, c as u16, marks, least);
    }
    refuse(least)
}
