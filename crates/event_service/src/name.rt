//! The name of a sender, as it stands in packets.

ghost use Rattle.std.specs.Prelude.{◌≡◌, ◌≤◌, length};
ghost use Rattle.lc_model.specs.Bytes.{zero_filled};
ghost use Rattle.lc_model.specs.Name.{app_name_size};

use std::marker::Model;

/// The most bytes of a sender's name.
pub(crate) const MAX_NAME: usize = 20;

/// The name of a sender: at most 20 bytes, and the zeros that fill its field in packets. Contracts see the name.
#[derive(Debug, Drop)]
pub(crate) struct SenderName {
    field: [u8; MAX_NAME],
    length: usize,
}

impl Model for SenderName {
    ghost use Rattle.std.specs.Prelude.{◌≡◌, ◌≤◌, ℕ, List, take};
    ghost use Rattle.lc_model.specs.Bytes.{zero_filled};
    ghost use Rattle.lc_model.specs.Name.{app_name_size};

    ghost Value = { List ℕ };

    ghost view = { λ n. take n.length n.field };

    ghost invariant = { λ n. (n.length ≤ app_name_size) ×
        (n.field ≡ zero_filled app_name_size (take n.length n.field)) };
}

impl SenderName {
    /// The name of these bytes. Condition: at most 20 bytes.
    pub(crate) fn of(name: &[u8]) -> SenderName
        requires { length name.now ≤ app_name_size }
        ensures { result ≡ name.now }
    {
        let mut field = [0; MAX_NAME];
        let length = name.len();
        field[..length].copy_from_slice(name);
        SenderName { field, length }
    }

    pub(crate) fn as_slice(&self) -> &[u8]
        ensures { result.now ≡ self.now }
    {
        &self.field[..self.length]
    }

    /// The 20 bytes of its field: the name, and then zeros.
    pub(crate) fn field(&self) -> &[u8; MAX_NAME]
        ensures field { result.now ≡ zero_filled app_name_size self.now }
        ensures short { length self.now ≤ app_name_size }
    {
        &self.field
    }
}
