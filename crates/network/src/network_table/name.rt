//! Names of ports.

ghost use Rattle.std.specs.Prelude.{◌≡◌, ◌≤◌, ◌<◌, ◌++◌, ◌∷◌, ◌==◌, [], length};
ghost use Rattle.std.specs.List.{list_any};
ghost use Rattle.network.specs.Names.{is_name, name_in};

use std::marker::Model;

/// The most octets of a name: those of `IFNAMSIZ` (netdevice(7)) without the one that ends it.
pub const NAME_OCTETS: usize = 15;

/// The name of a port: at most 15 octets. A value is these octets and nothing else.
#[derive(Clone, Copy, Debug, PartialEq, Eq)]
pub struct Name {
    count: u8,
    // 0 past the last octet
    octets: [u8; NAME_OCTETS],
}

/// A contract sees the list of the octets.
impl Model for Name {
    ghost use Rattle.std.specs.Prelude.{ℕ, List, length, take};
    ghost use Rattle.network.specs.Kept.{HoldsName, back, back_length, with_zeros};

    ghost Value = { List ℕ };

    ghost view = { λ n. take n.count n.octets };

    ghost invariant = { λ n. HoldsName n.count n.octets };

    ghost inverse = { λ v. record { count = length v; octets = with_zeros v } };

    ghost inverse_ok = { λ n h. Prim.rw (back n.count n.octets h, back_length n.count n.octets h) };
}

/// Whether an octet is a slash.
fn has_slash(word: &[u8]) -> bool
    ensures { result ≡ list_any (λ octet. octet == 47) word.now }
{
    word.iter().any(|octet| *octet == b'/')
}

/// Whether a word is a name.
fn is_name(word: &[u8]) -> bool
    ensures { result ≡ is_name word.now }
{
    !word.is_empty()
        && word.len() <= NAME_OCTETS
        && !has_slash(word)
        && word != b".".as_slice()
        && word != b"..".as_slice()
}

impl Name {
    /// No octets.
    pub(crate) fn none() -> Name
        ensures { result ≡ [] }
    {
        Name {
            count: 0,
            octets: [0; NAME_OCTETS],
        }
    }

    /// One octet more.
    fn push(&mut self, octet: u8)
        requires { length self.old < NAME_OCTETS }
        ensures { self.new ≡ self.old ++ octet ∷ [] }
    {
        self.octets[self.count as usize] = octet;
        self.count += 1;
    }

    /// These octets, unchecked.
    fn of(word: &[u8]) -> Name
        requires { length word.now ≤ NAME_OCTETS }
        ensures { result ≡ word.now }
    {
        let mut name = Name::none();
        for octet in word {
            name.push(*octet);
        }
        name
    }

    /// The name that a word is, if it is one: 1 to 15 octets, none of them a slash, and neither `.` nor `..`.
    pub fn new(word: &[u8]) -> Option<Name>
        ensures { result ≡ name_in word.now }
    {
        if is_name(word) {
            Some(Name::of(word))
        } else {
            None
        }
    }

    /// The octets.
    pub fn as_slice(&self) -> &[u8]
        ensures { result.now ≡ self.now }
    {
        &self.octets[..self.count as usize]
    }
}
