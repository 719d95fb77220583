//! An address with its mask.
ghost use Rattle.std.specs.Prelude.{◌≡◌, length};
ghost use Rattle.inet.specs.Layout.{Whole, family, octets};
ghost use Rattle.inet.specs.Recv.{inet};

// An address: one number of 32 bits, or the upper and the lower 64 bits.
#[derive(Clone, Copy, PartialEq, Eq, Debug)]
pub enum IpAddr {
    V4(u32),
    V6(u64, u64),
}

impl IpAddr {
    // PostgreSQL's number of the address family.
    pub fn family(self) -> u8
        ensures { result ≡ family self }
    {
        match self {
            IpAddr::V4(_) => 2,
            IpAddr::V6(_, _) => 3,
        }
    }

    // How many octets the address has. Its numbers are those of their types, so they fit them.
    pub fn octet_count(self) -> u8
        ensures count { result ≡ length (octets self) }
        ensures whole { Whole self }
    {
        match self {
            IpAddr::V4(_bits) => 4,
            IpAddr::V6(_high, _low) => 16,
        }
    }
}

#[derive(Clone, Copy, PartialEq, Eq, Debug)]
pub struct Inet {
    addr: IpAddr,
    netmask: u8,
}

impl Inet {
    pub fn new(addr: IpAddr, netmask: u8) -> Inet
        ensures { result ≡ inet addr netmask }
    {
        Inet { addr, netmask }
    }

    pub fn addr(&self) -> IpAddr
        ensures { result ≡ self.now.addr }
    {
        self.addr
    }

    pub fn netmask(&self) -> u8
        ensures { result ≡ self.now.netmask }
    {
        self.netmask
    }
}
