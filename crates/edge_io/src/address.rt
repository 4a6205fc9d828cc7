/// An address of the internet protocol, as a number in network order.
///
/// `10.0.0.1` is `V4(0x0a00_0001)`, and `::1` is `V6(1)`.
#[derive(Clone, Copy, Debug, PartialEq, Eq, PartialOrd, Ord, Hash)]
pub enum Addr {
    V4(u32),
    V6(u128),
}
