ghost use Rattle.std.specs.Prelude.{◌≡◌, IfOk, string_bytes};
ghost use Rattle.std.specs.List.{flat_map};
ghost use Rattle.cap_frame.specs.Directory.{directory_items};
ghost use Rattle.cap_frame.specs.Packages.{package_seen};
ghost use Rattle.cap_text.specs.Table.{format_name, package_line, component_line, tag_line, component_lines, custom_lines, component_table};

use cap_bytes::{Format, Part};
use cap_files::file_name;
use cap_frame::{Directory, PackageInfo};
use cap_package::Package;
use std::alloc::{AllocError, Global};

/// The tags of the components of the standard, in order.
const TAGS: [u8; 12] = [1, 2, 3, 4, 5, 6, 7, 8, 9, 10, 11, 12];

/// The component table of a package: a line for the package, one for each component of the standard
/// and one for each custom component, with the sizes that the Directory gives.
#[tactic(auto, unfolding(crate::specs::Table::component_lines))]
pub fn component_table(alloc: Global, package: &Package<'_, '_>) -> Result<String, AllocError>
    ensures { IfOk result (λ t. string_bytes t ≡ component_table «package».now) }
{
    let header = package.header();
    let mut text = package_line(alloc, header.format(), header.package())?;
    text.push_str(component_lines(alloc, package, &TAGS)?.as_str())?;
    text.push_str(custom_lines(alloc, &package.directory())?.as_str())?;
    Ok(text)
}

#[tactic(auto, unfolding(crate::specs::Table::package_line))]
fn package_line(alloc: Global, format: Format, info: PackageInfo<'_>) -> Result<String, AllocError>
    ensures { IfOk result (λ t. string_bytes t ≡ package_line format (package_seen info.entry)) }
{
    let aid = hex::encode(alloc, info.aid)?;
    let version = format_name(format);
    format!(in alloc;
        "package {aid} {}.{} format {version}\n",
        info.major, info.minor
    )
}

// The version of the format.
fn format_name(format: Format) -> &'static str
    ensures { result.now ≡ format_name format }
{
    match format {
        Format::V21 => "2.1",
        Format::V22 => "2.2",
    }
}

fn component_lines(
    alloc: Global,
    package: &Package<'_, '_>,
    tags: &[u8],
) -> Result<String, AllocError>
    ensures { IfOk result (λ t. string_bytes t ≡ flat_map (tag_line «package».now.directory) tags.now) }
{
    let mut text = String::new(alloc);
    'tags: for tag in tags {
        let size = package.directory().size(*tag).unwrap_or(0);
        text.push_str(component_line(alloc, *tag, size)?.as_str())?;
    }
    Ok(text)
}

#[tactic(auto, unfolding(crate::specs::Table::custom_lines))]
fn custom_lines(alloc: Global, directory: &Directory<'_>) -> Result<String, AllocError>
    ensures { IfOk result (λ t. string_bytes t ≡ custom_lines (directory_items directory.now)) }
{
    let mut text = String::new(alloc);
    'customs: for custom in directory.customs() {
        text.push_str(component_line(alloc, custom.tag, custom.size)?.as_str())?;
    }
    Ok(text)
}

fn component_line(alloc: Global, tag: u8, size: u16) -> Result<String, AllocError>
    ensures { IfOk result (λ t. string_bytes t ≡ component_line tag size) }
{
    let name = file_name(Part(tag));
    if size == 0 {
        format!(in alloc; "{name} {tag} absent\n")
    } else {
        format!(in alloc; "{name} {tag} {size}\n")
    }
}
