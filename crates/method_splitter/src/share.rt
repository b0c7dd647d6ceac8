//! Shares, and the elements that are in one.
ghost use Rattle.std.specs.Prelude.{◌≡◌, ◌+◌, ◌*◌, ◌<◌, ◌≤◌, length, take, drop};
ghost use Rattle.method_splitter.specs.Shares as specs;

/// Things that follow each other, which are numbered from 0.
#[derive(Clone, Copy, Debug, PartialEq, Eq)]
pub struct Share {
    /// The first of them.
    pub first: usize,
    /// How many they are.
    pub count: usize,
}

/// How many shares there are of so many things, `size` things in each but the last.
pub fn share_count(things: usize, size: usize) -> usize
    requires { 1 ≤ size }
    ensures { result ≡ specs.share_count size things }
{
    things.div_ceil(size)
}

/// The share of number `k`, counted from 0.
pub fn share_at(things: usize, size: usize, k: usize) -> Share
    requires size { 1 ≤ size }
    requires within { k < specs.share_count size things }
    ensures value { result ≡ specs.share_at size things k }
    ensures some { 1 ≤ result.count }
    ensures few { result.count ≤ size }
    ensures within { result.first + result.count ≤ things }
{
    let first = size * k;
    Share {
        first,
        count: size.min(things - first),
    }
}

/// The elements that are in a share.
pub fn shared<T>(elements: &[T], share: Share) -> &[T]
    requires { share.first + share.count ≤ length elements.now }
    ensures { result.now ≡ specs.shared elements.now share }
{
    let (_, rest) = elements.split_at(share.first);
    let (own, _) = rest.split_at(share.count);
    own
}
