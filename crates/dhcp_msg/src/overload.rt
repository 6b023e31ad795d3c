//! The option overload (RFC 2132, section 9.3).

ghost use Rattle.std.specs.Prelude.{◌≡◌};
ghost use Rattle.std.specs.Option.{option_copied};
ghost use Rattle.dhcp_msg.specs.Reading.{overload_of};

use crate::fault::DhcpFault;

/// Which of the fields `file` and `sname` hold options.
#[derive(Clone, Copy)]
pub(crate) struct Overload {
    pub(crate) file: bool,
    pub(crate) sname: bool,
}

/// What the value of the option overload says, where there is one.
pub(crate) fn read_overload(value: Option<&[u8]>) -> Result<Overload, DhcpFault>
    ensures { result ≡ overload_of (option_copied value.entry) }
{
    match value {
        None => Ok(Overload {
            file: false,
            sname: false,
        }),
        Some([1]) => Ok(Overload {
            file: true,
            sname: false,
        }),
        Some([2]) => Ok(Overload {
            file: false,
            sname: true,
        }),
        Some([3]) => Ok(Overload {
            file: true,
            sname: true,
        }),
        Some([]) => Err(DhcpFault::Overload(0)),
        Some([first, ..]) => Err(DhcpFault::Overload(*first)),
    }
}
