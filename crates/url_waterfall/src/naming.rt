//! The names that an installer may have.

ghost use Rattle.std.specs.Prelude.{◌≡◌, ◌++◌, IfOk, OnOk};
ghost use Rattle.std.specs.Option.{option_copied};
ghost use Rattle.tlvinfo.specs.IdentityView.{board_of};
ghost use Rattle.url_waterfall.specs.Names.{base_of, both_names, installer_names};

use bd_dev::{Bytes, Memory, Names};
use bd_mode::Mode;
use std::alloc::Global;
use tlvinfo::Identity;

/// What each name begins with.
fn base(mode: Mode) -> &'static [u8]
    ensures { result.now ≡ base_of mode }
{
    match mode {
        Mode::Install | Mode::Rescue | Mode::Uninstall => b"onie-installer",
        Mode::Update | Mode::Embed => b"onie-updater",
    }
}

/// The front, the mark and the part, one behind the other.
fn joined(alloc: Global, front: &[u8], mark: &[u8], part: &[u8]) -> Result<Bytes, Memory>
    ensures { IfOk result (λ text. text ≡ front.now ++ mark.now ++ part.now) }
{
    let mut text = Bytes::from_slice(alloc, front)?;
    text.push_slice(mark)?;
    text.push_slice(part)?;
    Ok(text)
}

/// Puts the stem and the stem with `.bin` at the end.
fn push_both(alloc: Global, names: &mut Names, stem: Bytes) -> Result<(), Memory>
    ensures { OnOk result (names.new ≡ names.old ++ both_names stem) }
{
    let mut longer = Bytes::from_slice(alloc, stem.as_slice())?;
    longer.push_slice(b".bin")?;
    names.push(stem)?;
    names.push(longer)
}

/// The names that an installer may have on the board, or an updater in the modes `Update` and `Embed`, in the order in
/// which they are tried: the narrowest first, and each followed by itself with `.bin`.
///
/// `silicon` is the maker of the switching silicon, where it is known. Answers `Memory` where there is no memory for
/// the names.
///
/// Source: ONIE design specification, image discovery, default file name search order.
pub fn names(
    alloc: Global,
    identity: &Identity,
    silicon: Option<&[u8]>,
    mode: Mode,
) -> Result<Names, Memory>
    ensures { IfOk result (λ names.
        names ≡ installer_names (board_of identity.now) (option_copied silicon.entry) mode) }
{
    let base = base(mode);
    let machine = identity.machine.as_str().as_bytes();
    let revision = identity.revision.as_str().as_bytes();
    let with_arch = joined(alloc, base, b"-", identity.arch.as_str().as_bytes())?;
    let with_machine = joined(alloc, with_arch.as_slice(), b"-", machine)?;
    let with_revision = joined(alloc, with_machine.as_slice(), b"-r", revision)?;

    let mut names = Names::new(alloc);
    push_both(alloc, &mut names, with_revision)?;
    push_both(alloc, &mut names, with_machine)?;
    push_both(alloc, &mut names, joined(alloc, base, b"-", machine)?)?;
    if let Some(silicon) = silicon {
        let with_silicon = joined(alloc, with_arch.as_slice(), b"-", silicon)?;
        push_both(alloc, &mut names, with_silicon)?;
    }
    push_both(alloc, &mut names, with_arch)?;
    push_both(alloc, &mut names, Bytes::from_slice(alloc, base)?)?;
    Ok(names)
}
