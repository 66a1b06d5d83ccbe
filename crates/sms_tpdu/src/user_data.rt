//! User data: a header, and septets of a text or octets.

ghost use Rattle.std.specs.Prelude.{◌≡◌, IfOk};
ghost use Rattle.sms_tpdu.specs.UserData.ConcatenationFound.{IsPlace, concat_of_header};

pub mod body;
pub mod concat;
pub mod data_fault;
pub mod elements;
pub mod header;
pub mod lengths;
pub mod lent;
pub mod spans;
pub mod view;
pub mod writing;

use crate::user_data::body::Body;
use crate::user_data::concat::Concat;
use crate::user_data::header::Header;
use std::alloc::{AllocError, Global};

/// What a unit carries, TP-UD (TS 23.040, 9.2.3.24): a header, if TP-UDHI says so, and what stands
/// after it.
#[derive(Drop)]
pub struct UserData {
    /// TP-UDH: the user data header.
    pub header: Option<Header>,
    /// What stands after TP-UDH in TP-UD, or the whole TP-UD.
    pub body: Body,
}

impl UserData {
    /// The place of a segment that the header tells, if there is one and it tells one.
    pub fn concat(&self) -> Option<Concat>
        ensures value { result ≡ concat_of_header self.now.header }
        ensures in_range { IsPlace result }
    {
        match &self.header {
            Some(header) => header.concat(),
            None => None,
        }
    }

    /// The same user data.
    pub fn copy(&self, alloc: Global) -> Result<UserData, AllocError>
        ensures { IfOk result (λ user. user ≡ self.now) }
    {
        let header = match &self.header {
            Some(header) => Some(header.copy(alloc)?),
            None => None,
        };
        let body = self.body.copy(alloc)?;
        Ok(UserData { header, body })
    }
}
