//! The modes.

ghost use Rattle.std.specs.Prelude.{◌≡◌};
ghost use Rattle.bd_mode.specs.Modes.{mode_of, text_of};

/// What the loader is to do at a start (ONIE design specification, the values of `onie_boot_reason`).
#[derive(Clone, Copy, Debug, PartialEq, Eq)]
pub enum Mode {
    /// Find an installer of an operating system and run it.
    Install,
    /// Stay in the loader, and look for no installer.
    Rescue,
    /// Remove the operating system that was installed.
    Uninstall,
    /// Find an updater of the loader itself and run it.
    Update,
    /// The same, where the disk is to hold the loader alone.
    Embed,
}

impl Mode {
    /// The mode that a text names, or None where it names none.
    pub fn parse(text: &[u8]) -> Option<Mode>
        ensures { result ≡ mode_of text.now }
    {
        match text {
            b"install" => Some(Mode::Install),
            b"rescue" => Some(Mode::Rescue),
            b"uninstall" => Some(Mode::Uninstall),
            b"update" => Some(Mode::Update),
            b"embed" => Some(Mode::Embed),
            _ => None,
        }
    }

    /// The mode's name, in lower case.
    pub fn text(self) -> &'static [u8]
        ensures { result.now ≡ text_of self }
    {
        match self {
            Mode::Install => b"install",
            Mode::Rescue => b"rescue",
            Mode::Uninstall => b"uninstall",
            Mode::Update => b"update",
            Mode::Embed => b"embed",
        }
    }
}
