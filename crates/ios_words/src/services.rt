//! Ranges of services.
ghost use Rattle.std.specs.Prelude.{◌^◌, ◌<◌, ◌≤◌};

/// The last service: port 65535 of protocol 255.
const LAST: u32 = 0xff_ffff;

/// A range of services.
#[derive(Clone, Copy, Debug)]
pub(crate) struct Services {
    pub(crate) low: u32,
    pub(crate) high: u32,
    pub(crate) ghost ordered: { low ≤ high },
    pub(crate) ghost in_range: { high < 2 ^ 24 },
}

impl Services {
    ghost use Rattle.ios_words.specs.ServiceRanges.{all, of_ports};
    ghost use Rattle.ios_words.specs.Services.{protocol, port};
    ghost use Rattle.std.specs.Prelude.{◌≡◌, ◌≤◌};

    /// All services.
    pub(crate) fn whole() -> Services
        ensures { result ≡ all }
    {
        Services { low: 0, high: LAST }
    }

    /// The services of a protocol from one port to another.
    pub(crate) fn of_ports(number: u32, first: u32, last: u32) -> Services
        requires protocol { number ≤ 255 }
        requires ordered { first ≤ last }
        requires few { last ≤ 65535 }
        ensures { result ≡ of_ports number first last }
    {
        Services {
            low: number * 65536 + first,
            high: number * 65536 + last,
        }
    }

    /// The protocol of the first service.
    pub(crate) fn protocol(self) -> u32
        ensures protocol { result ≡ protocol self.low }
        ensures few { result ≤ 255 }
    {
        self.low / 65536
    }

    /// The port of the first service.
    pub(crate) fn first_port(self) -> u32
        ensures { result ≡ port self.low }
    {
        self.low % 65536
    }
}
