ghost use Rattle.std.specs.Iterator.{YieldsFirstBy, item_count};
ghost use Rattle.cap_desc.specs.ClassRecords.{described_class_seen, described_left};
ghost use Rattle.cap_desc.specs.MemberRecords.{field_seen, method_seen};
ghost use Rattle.cap_desc.specs.MemberLists.{fields_left, methods_left};
ghost use Rattle.cap_desc.specs.MembersLeft.{methods_of_left, methods_but_left, fields_of_left};

use crate::reading;
use crate::records::{
    DescClass, DescClasses, DescFields, DescMethods, FieldInfo, FieldsOf, MethodInfo, MethodsBut,
    MethodsOf,
};

impl Iterator for DescFields<'_> {
    type Item = FieldInfo;

    ghost next_gives = { YieldsFirstBy field_seen fields_left };

    ghost remaining = { item_count fields_left };

    #[tactic(auto, using(cap_bytes::proofs::Loops::yielding))]
    #[inline(always)]
    fn next(&mut self) -> Option<FieldInfo> {
        self.left = self.left.checked_sub(1)?;
        reading::field_descriptor_info(&mut self.items).ok()
    }
}

impl Iterator for DescMethods<'_> {
    type Item = MethodInfo;

    ghost next_gives = { YieldsFirstBy method_seen methods_left };

    ghost remaining = { item_count methods_left };

    #[tactic(auto, using(cap_bytes::proofs::Loops::yielding))]
    #[inline(always)]
    fn next(&mut self) -> Option<MethodInfo> {
        self.left = self.left.checked_sub(1)?;
        reading::method_descriptor_info(&mut self.items).ok()
    }
}

impl<'a> Iterator for DescClasses<'a> {
    type Item = DescClass<'a>;

    ghost next_gives = { YieldsFirstBy described_class_seen described_left };

    ghost remaining = { item_count described_left };

    #[tactic(auto, using(cap_bytes::proofs::Loops::yielding))]
    #[inline(always)]
    fn next(&mut self) -> Option<DescClass<'a>> {
        self.left = self.left.checked_sub(1)?;
        reading::class_descriptor_info(&mut self.items).ok()
    }
}

impl Iterator for MethodsOf<'_> {
    type Item = MethodInfo;

    ghost next_gives = { YieldsFirstBy method_seen methods_of_left };

    ghost remaining = { item_count methods_of_left };

    #[inline(always)]
    fn next(&mut self) -> Option<MethodInfo> {
        'classes: loop {
            if let Some(method) = self.methods.next() {
                return Some(method);
            }
            let class = self.classes.next()?;
            self.methods = class.methods();
        }
    }
}

impl Iterator for MethodsBut<'_, '_> {
    type Item = MethodInfo;

    ghost next_gives = { YieldsFirstBy method_seen methods_but_left };

    ghost remaining = { item_count methods_but_left };

    #[inline(always)]
    fn next(&mut self) -> Option<MethodInfo> {
        'classes: loop {
            if let Some(method) = self.methods.next() {
                return Some(method);
            }
            let class = self.classes.next()?;
            if !self.set.has(class.class_ref()) {
                self.methods = class.methods();
            }
        }
    }
}

impl Iterator for FieldsOf<'_> {
    type Item = FieldInfo;

    ghost next_gives = { YieldsFirstBy field_seen fields_of_left };

    ghost remaining = { item_count fields_of_left };

    #[inline(always)]
    fn next(&mut self) -> Option<FieldInfo> {
        'classes: loop {
            if let Some(field) = self.fields.next() {
                return Some(field);
            }
            let class = self.classes.next()?;
            self.fields = class.fields();
        }
    }
}
