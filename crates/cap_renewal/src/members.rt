ghost use Rattle.std.specs.Prelude.{map, IfOk, ◌≡◌, ◌≤◌, length};
ghost use Rattle.cap_class.specs.ClassFormat.{classes_info};
ghost use Rattle.cap_components.specs.PackageRecord.{names_interface};
ghost use Rattle.cap_desc.specs.DescriptorFormat.{Descriptor, descriptor_info};
ghost use Rattle.cap_renewal.specs.Files.{IsRenewed, file_bytes};
ghost use Rattle.cap_renewal.specs.ClassEdits.{classes_edits, renewed_class};
ghost use Rattle.cap_renewal.specs.DescriptorEdits.{descriptor_edits, renewed_descriptor};
ghost use Rattle.cap_renewal.specs.NewMethods.{to};
ghost use Rattle.cap_bytes.specs.Spelling.{Stands};
ghost use Rattle.cap_frame.specs.Frame.{component};

use crate::{NewMethods, renew_classes, renew_descriptor};
use cap_package::{Package, interface_offsets};
use std::alloc::{AllocError, Global};

/// The file of the Class component with the new offsets in the dispatch tables.
pub fn class_file(
    alloc: Global,
    package: &Package<'_, '_>,
    news: &NewMethods,
) -> Result<Vec<u8>, AllocError>
    ensures { IfOk result (λ file. IsRenewed «package».now.parts 6 (classes_info «package».now.header.format)
        (map (renewed_class (to news.now))) (classes_edits (to news.now)) «package».now.classes file.items) }
{
    let classes = package.classes();
    let mut info = classes.info().bytes.to_vec(alloc)?;
    renew_classes(&classes, news, info.as_mut_slice());
    file_of(alloc, 6, &info)
}

/// The file of the Descriptor component with the new numbers of the methods of classes.
pub fn descriptor_file(
    alloc: Global,
    package: &Package<'_, '_>,
    news: &NewMethods,
) -> Result<Vec<u8>, AllocError>
    ensures { IfOk result (λ file. IsRenewed «package».now.parts 11 descriptor_info
        (renewed_descriptor (names_interface «package».now.classes) news.now)
        (λ (d : Descriptor). descriptor_edits (names_interface «package».now.classes) news.now d.classes)
        «package».now.description.items file.items) }
{
    let _parts = package.parts();
    let descriptor = package.descriptor();
    let interfaces = interface_offsets(&package.classes());
    let mut info = descriptor.info().bytes.to_vec(alloc)?;
    renew_descriptor(&descriptor, &interfaces, news, info.as_mut_slice());
    file_of(alloc, 11, &info)
}

/// The file of a component: its tag, how many bytes its info has, and the info (section 6.1 of the specification).
#[tactic(auto, using(crate::proofs::Frames::file_steps, crate::proofs::Frames::file_stands))]
pub fn file_of(alloc: Global, tag: u8, info: &[u8]) -> Result<Vec<u8>, AllocError>
    requires { length info.now ≤ 65535 }
    ensures value { IfOk result (λ file. file.items ≡ file_bytes tag info.now) }
    ensures stands { IfOk result (λ file. Stands (component tag) file.items info.now) }
{
    let mut file = Vec::with_capacity(alloc, 3 + info.len())?;
    file.push(tag)?;
    file.extend_from_slice(&(info.len() as u16).to_be_bytes())?;
    file.extend_from_slice(info)?;
    Ok(file)
}
