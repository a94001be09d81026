ghost use Rattle.std.specs.Prelude.{◌≡◌, ◌≤◌, ◌<◌, ◌+◌, ℕ, false, List, All, IsTrue, IfSome, OnOk, Some, length, slice_get, ◌^◌, IfOk};
ghost use Rattle.std.specs.Prelude.{map, count_by, slice_index};
ghost use Rattle.xf_layout.specs.declared.form.Form.TheVariants.{Jump, Mark};
ghost use Rattle.jc_decode.specs.Symbols.{IsItem};
ghost use Rattle.xf_layout.specs.Form.{begins, length_of_forms};
ghost use Rattle.xf_layout.specs.Settling.{LeadsFar, Settles};
ghost use Rattle.xf_layout.specs.Widening.{is_short_jump, shortest, widened};

use crate::form::Form;
use crate::places::LabelPlaces;
use jc_decode::Item;
use std::alloc::{AllocError, Global};

/// The farthest that a short jump leads, with one byte more for each that leads ahead.
const FARTHEST: u32 = 128;

/// What is known of the short jumps while some become wide. No proof rests on it: each jump is measured before it becomes wide.
#[derive(Drop)]
struct Reaches {
    /// The number of the item at which a label stands.
    marks: LabelPlaces,
    /// By item how far its jump leads.
    reaches: Vec<u32>,
    /// The items whose jumps lead too far.
    far: Vec<usize>,
}

fn form_at(forms: &[Form], n: usize) -> Option<Form>
    ensures { result ≡ slice_get forms.now n }
{
    forms.get(n).copied()
}

/// The bytes of the item of this number, if there is one.
fn bytes_at(forms: &[Form], n: usize) -> u32
    ensures { begins forms.now n + result ≡ begins forms.now (n + 1) }
{
    match form_at(forms, n) {
        Some(form) => form.bytes(),
        None => 0,
    }
}

/// The bytes of the items from one to another, or some of them that are more than 128.
fn stretch(forms: &[Form], from: usize, to: usize) -> u64
    requires order { from ≤ to }
    requires within { to ≤ length forms.now }
    ensures { begins forms.now from + result ≤ begins forms.now to }
{
    let mut bytes: u64 = 0;
    'items: for n in from..to {
        if bytes > 128 {
            return bytes;
        }
        bytes += u64::from(bytes_at(forms, n));
    }
    bytes
}

/// Whether an item stands too far from another for a short jump.
fn is_apart(forms: &[Form], k: usize, mark: usize) -> bool
    requires from { k < length forms.now }
    requires to { mark < length forms.now }
    ensures ahead { IsTrue result → k ≤ mark → begins forms.now k + 127 < begins forms.now mark }
    ensures back { IsTrue result → mark < k → begins forms.now mark + 128 < begins forms.now k }
{
    if k <= mark {
        stretch(forms, k, mark) > 127
    } else {
        stretch(forms, mark, k) > 128
    }
}

/// Whether the item of this number is the label.
fn is_mark(forms: &[Form], mark: usize, label: u16) -> bool
    ensures { IsTrue result → slice_get forms.now mark ≡ Some (Mark label) }
{
    match forms.get(mark) {
        Some(Form::Mark(other)) => *other == label,
        _ => false,
    }
}

/// Whether no short jump leads from an item to a label.
fn leads_far(forms: &[Form], k: usize, label: u16, marks: &LabelPlaces) -> bool
    requires { k < length forms.now }
    ensures { IsTrue result → LeadsFar forms.now k label }
{
    let mark = marks.at(label) as usize;
    mark < forms.len() && is_mark(forms, mark, label) && is_apart(forms, k, mark)
}

/// The label of a short jump, if this is one.
fn short_label(form: Form) -> Option<u16>
    ensures { IfSome result (λ label. form ≡ Jump label false) }
{
    match form {
        Form::Jump { label, is_wide } => { if is_wide { None } else { Some(label) } }
        _ => None,
    }
}

/// The label of the short jump at an item, if there is one.
fn short_jump(forms: &[Form], k: usize) -> Option<u16>
    ensures { IfSome result (λ label. slice_get forms.now k ≡ Some (Jump label false)) }
{
    short_label(*forms.get(k)?)
}

/// Makes a jump of these items wide, if it leads too far, and tells whether it does.
fn widen_far(items: &[Item], forms: &mut Vec<Form>, k: usize, marks: &LabelPlaces) -> bool
    requires { (source : List ℕ) × All (IsItem source items.now) items.now }
    ensures { Settles items.now forms.old.items forms.new.items }
{
    let _ = items;
    let Some(label) = short_jump(forms.as_slice(), k) else {
        return false;
    };
    if k >= forms.len() || !leads_far(forms.as_slice(), k, label, marks) {
        return false;
    }
    forms[k] = Form::Jump {
        label,
        is_wide: true,
    };
    true
}

/// How far a jump leads from a place to another, with one byte more where it leads ahead.
fn reach(from: u32, to: u32) -> u32 {
    if from <= to {
        (to - from).saturating_add(1)
    } else {
        from - to
    }
}

fn start(starts: &[u32], n: usize) -> u32 {
    starts.get(n).copied().unwrap_or(0)
}

/// Whether some forms have so few bytes that each jump among them can be short.
fn are_few(forms: &[Form]) -> bool {
    let mut bytes: u32 = 0;
    'forms: for form in forms {
        bytes = bytes.saturating_add(form.bytes());
    }
    bytes < FARTHEST
}

impl Reaches {
    fn new(alloc: Global, forms: &[Form]) -> Result<Reaches, AllocError> {
        let mut marks = LabelPlaces::new(alloc, forms)?;
        let mut starts = Vec::with_capacity(alloc, forms.len())?;
        let mut at: u32 = 0;
        let mut number: u32 = 0;
        'marks: for form in forms {
            if let Form::Mark(label) = *form {
                marks.set(label, number);
            }
            starts.push(at)?;
            at = at.saturating_add(form.bytes());
            number = number.saturating_add(1);
        }
        let mut reaches = Reaches {
            marks,
            reaches: Vec::with_capacity(alloc, forms.len())?,
            far: Vec::new(alloc),
        };
        reaches.measure(forms, starts.as_slice())?;
        Ok(reaches)
    }

    /// Measures all jumps, where the items begin at these places.
    fn measure(&mut self, forms: &[Form], starts: &[u32]) -> Result<(), AllocError> {
        'jumps: for (n, form) in forms.iter().enumerate() {
            let reach = match short_label(*form) {
                Some(label) => reach(
                    start(starts, n),
                    start(starts, self.marks.at(label) as usize),
                ),
                None => 0,
            };
            self.reaches.push(reach)?;
            if reach > FARTHEST {
                self.far.push(n)?;
            }
        }
        Ok(())
    }

    /// Notes that the jump of an item leads one byte farther, where another stands between it and its label.
    fn lengthen(&mut self, n: usize, form: Form, wide: usize) -> Result<(), AllocError> {
        let Some(label) = short_label(form) else {
            return Ok(());
        };
        let is_between = (n < wide) == (wide < self.marks.at(label) as usize);
        if is_between && n < self.reaches.len() {
            let reach = self.reaches[n].saturating_add(1);
            self.reaches[n] = reach;
            if reach == FARTHEST + 1 {
                self.far.push(n)?;
            }
        }
        Ok(())
    }

    /// Notes that an item's jump became wide: those that lead over it stand within 128 bytes.
    fn spread(&mut self, forms: &[Form], wide: usize) -> Result<(), AllocError> {
        let mut bytes: u32 = 0;
        'before: for back in 0..wide {
            let n = wide - 1 - back;
            if bytes > FARTHEST || n >= forms.len() {
                break;
            }
            self.lengthen(n, forms[n], wide)?;
            bytes = bytes.saturating_add(forms[n].bytes());
        }
        bytes = 0;
        'after: for n in wide..forms.len() {
            if bytes > FARTHEST + 3 {
                break;
            }
            self.lengthen(n, forms[n], wide)?;
            bytes = bytes.saturating_add(forms[n].bytes());
        }
        Ok(())
    }
}

/// Makes jumps wide that lead too far, and then those that lead too far by that. It takes time in proportion to the number of
/// items, and for each jump that becomes wide to that of the items within 128 bytes.
pub fn settle(alloc: Global, items: &[Item], forms: &mut Vec<Form>) -> Result<(), AllocError>
    requires { (source : List ℕ) × All (IsItem source items.now) items.now }
    ensures { OnOk result (Settles items.now forms.old.items forms.new.items) }
{
    if are_few(forms.as_slice()) {
        return Ok(());
    }
    let mut reaches = Reaches::new(alloc, forms.as_slice())?;
    'jumps: for _turn in 0..forms.len() {
        let Some(k) = reaches.far.pop() else {
            return Ok(());
        };
        if widen_far(items, forms, k, &reaches.marks) {
            reaches.spread(forms.as_slice(), k)?;
        }
    }
    Ok(())
}

/// Each item in its shortest form.
pub fn shortest_forms(alloc: Global, items: &[Item]) -> Result<Vec<Form>, AllocError>
    ensures { IfOk result (λ forms. forms.items ≡ map shortest items.now) }
{
    let mut forms = Vec::with_capacity(alloc, items.len())?;
    'items: for item in items {
        forms.push(Form::shortest(item))?;
    }
    Ok(forms)
}

/// Makes each short jump wide whose label stands too far away, and tells how many these are.
pub fn widen(forms: &mut Vec<Form>, places: &LabelPlaces) -> usize
    requires { length_of_forms forms.old.items < 2 ^ 32 }
    ensures forms { forms.new.items ≡ widened (slice_index places.now) 0 forms.old.items }
    ensures risen { result + count_by is_short_jump forms.new.items ≡ count_by is_short_jump forms.old.items }
{
    let mut at = 0;
    let mut risen = 0;
    'forms: for form in forms.iter_mut() {
        let bytes = form.bytes();
        let wider = form.widened(places, at);
        risen += form.short_jumps() - wider.short_jumps();
        *form = wider;
        at += bytes;
    }
    risen
}
