//! Published clusters, as they are handed out.

ghost use Rattle.std.specs.Prelude.{◌≡◌, ◌<◌, ℕ, length};
ghost use Rattle.rr_space.specs.Parts.{IsWithin};

use crate::refer::{Cluster, Ref};

/// A published cluster: its number, and a hold on it.
#[derive(Clone, Copy)]
pub struct Published {
    pub cluster: &'static Cluster,
}

impl Published {
    /// The number that the cluster was published with.
    pub fn number(self) -> u32
        ensures { result ≡ self.cluster.now.number }
    {
        self.cluster.number()
    }

    /// The object under `place`.
    pub fn at(self, place: u32) -> Ref
        requires { place < length self.cluster.now.own }
        ensures is { result ≡ Ref.Shared place self.cluster }
        ensures within { (n : ℕ) → IsWithin n result }
    {
        let _ = self.cluster.len();
        Ref::Shared(place, self.cluster)
    }
}
