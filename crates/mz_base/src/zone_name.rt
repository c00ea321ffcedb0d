ghost use Rattle.std.specs.Prelude.{◌≡◌, ◌↔◌, IsTrue, IsSome, IfSome, List, ℕ};
ghost use Rattle.std.specs.Cmp.Lexicographic.{nat_list_eq_equiv};
ghost use Rattle.std.specs.Cmp.{partial_equiv_from_equiv};
ghost use Rattle.std.specs.List.{list_all};
ghost use Rattle.std.specs.Str.{bytes_eq};
ghost use Rattle.mz_base.specs.Names.{is_base_name, is_letter_or_digit};

use std::marker::Model;

/// The name of a zone: a letter from `a` to `z`, then at most 15 letters or digits, and not the
/// word `null`. Contracts see its bytes.
#[derive(Clone, Copy, Debug)]
pub struct ZoneName {
    text: [u8; 16],
    len: usize,
}

impl Model for ZoneName {
    ghost use Rattle.std.specs.Prelude.{◌≡◌, ◌-◌, ◌≤◌, ◌++◌, IsTrue, List, ℕ, length, take, replicate};
    ghost use Rattle.mz_base.specs.Names.{is_base_name};

    ghost Value = { List ℕ };

    ghost view = { λ z. take z.len z.text };

    ghost invariant = { λ z. (z.len ≤ 16)
        × (length z.text ≡ 16)
        × IsTrue (is_base_name (take z.len z.text))
        × (z.text ≡ take z.len z.text ++ replicate (16 - z.len) 0) };

    ghost inverse = { λ v. record { text = v ++ replicate (16 - length v) 0; len = length v } };
}

impl ZoneName {
    /// The name with this text, or None where the text hasn't the form of a name.
    pub fn new(text: &[u8]) -> Option<ZoneName>
        ensures some { IsSome result ↔ IsTrue (is_base_name text.now) }
        ensures text { IfSome result (λ name. name ≡ text.now) }
    {
        if !has_form(text) {
            return None;
        }
        let mut name = [0; 16];
        name[..text.len()].copy_from_slice(text);
        Some(ZoneName {
            text: name,
            len: text.len(),
        })
    }

    /// The text of the name.
    pub fn bytes(&self) -> &[u8]
        ensures text { result.now ≡ self.now }
        ensures form { IsTrue (is_base_name result.now) }
    {
        &self.text[..self.len]
    }
}

impl PartialEq for ZoneName {
    ghost eq = { bytes_eq };

    ghost laws = { partial_equiv_from_equiv nat_list_eq_equiv };

    fn eq(&self, other: &ZoneName) -> bool {
        self.bytes() == other.bytes()
    }
}

impl Eq for ZoneName {
    ghost laws = { nat_list_eq_equiv };
}

fn has_form(text: &[u8]) -> bool
    ensures { result ≡ is_base_name text.now }
{
    match text {
        [] => false,
        [first, rest @ ..] => {
            first.is_ascii_lowercase()
                && all_letters_or_digits(rest)
                && rest.len() <= 15
                && text != b"null".as_slice()
        }
    }
}

fn all_letters_or_digits(text: &[u8]) -> bool
    ensures { result ≡ list_all is_letter_or_digit text.now }
{
    text.iter()
        .all(|c| c.is_ascii_lowercase() || c.is_ascii_digit())
}
