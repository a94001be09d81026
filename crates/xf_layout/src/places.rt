ghost use Rattle.std.specs.Prelude.{◌≡◌, ◌<◌, ◌^◌, IfOk, length, slice_index};
ghost use Rattle.xf_layout.specs.Form.{length_of_forms};
ghost use Rattle.xf_layout.specs.Places.{FormsFit, IsInRoom, noted, noted_one};

use crate::form::Form;
use std::alloc::{AllocError, Global};
use std::marker::Model;

/// The place in the code where each label stands, by the label's number.
#[derive(Drop)]
pub struct LabelPlaces {
    items: Vec<u32>,
}

impl Model for LabelPlaces {
    ghost use Rattle.std.specs.Prelude.{List, ℕ};

    ghost Value = { List ℕ };

    ghost view = { λ p. p.items.items };
}

impl LabelPlaces {
    /// With room for the labels among some forms.
    pub fn new(alloc: Global, forms: &[Form]) -> Result<LabelPlaces, AllocError>
        ensures { IfOk result (λ p. FormsFit (length p) forms.now) }
    {
        Ok(LabelPlaces {
            items: vec![in alloc; 0; room(forms)]?,
        })
    }

    /// The place of a label; 0 of a number that no label has.
    pub fn at(&self, label: u16) -> u32
        ensures { result ≡ slice_index self.now label }
    {
        match self.items.get(usize::from(label)) {
            Some(place) => *place,
            None => 0,
        }
    }

    /// Notes a number for a label that there is room for.
    pub(crate) fn set(&mut self, label: u16, number: u32) {
        if usize::from(label) < self.items.len() {
            self.items[usize::from(label)] = number;
        }
    }

    /// Notes where the labels among some forms stand, and tells where their code ends.
    pub fn note(&mut self, forms: &[Form]) -> u32
        requires room { FormsFit (length self.old) forms.now }
        requires end { length_of_forms forms.now < 2 ^ 32 }
        ensures places { self.new ≡ noted forms.now 0 self.old }
        ensures room { length self.new ≡ length self.old }
        ensures end { result ≡ length_of_forms forms.now }
    {
        let mut at = 0;
        'forms: for form in forms {
            self.note_one(*form, at);
            at += form.bytes();
        }
        at
    }

    /// Notes where a label stands, if there is one at this place.
    fn note_one(&mut self, form: Form, at: u32)
        requires { IsInRoom (length self.old) form }
        ensures { self.new ≡ noted_one form at self.old }
    {
        if let Form::Mark(label) = form {
            self.items[usize::from(label)] = at;
        }
    }
}

/// A number above that of each label.
fn room(forms: &[Form]) -> usize
    ensures { FormsFit result forms.now }
{
    let mut room = 0;
    'forms: for form in forms {
        room = form.room(room);
    }
    room
}
