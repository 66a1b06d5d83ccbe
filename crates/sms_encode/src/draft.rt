//! What is asked for where a unit is encoded.

/// A kind of unit that has a text.
#[derive(Clone, Copy)]
pub enum DraftKind {
    /// SMS-DELIVER.
    Deliver,
    /// SMS-SUBMIT.
    Submit,
}

/// A unit whose octets are asked for, with the options of every kind. What is `None` was not given.
#[derive(Clone, Copy)]
pub struct Draft<'a> {
    /// Which unit (TP-MTI).
    pub kind: DraftKind,
    /// The other party, in text: of a delivery its origin (TP-OA), of a submission its target
    /// (TP-DA).
    pub address: &'a str,
    /// The text (TP-UD).
    pub text: &'a str,
    /// The reference of a submission (TP-MR).
    pub reference: Option<u8>,
    /// Whether a submission asks for the rejection of duplicates (TP-RD).
    pub reject: bool,
    /// The octet of a relative validity period of a submission (TP-VP).
    pub validity: Option<u8>,
    /// The seven octets of a delivery's stamp in hexadecimal (TP-SCTS).
    pub stamp: Option<&'a str>,
    /// Whether a submission asks for a status report (TP-SRR), or a delivery tells that its sender
    /// did (TP-SRI).
    pub report: bool,
    /// Whether a text that is too long for one unit goes into several.
    pub is_split: bool,
    /// Whether their reference takes two octets.
    pub is_wide: bool,
    /// The concatenation reference of several.
    pub concat_reference: Option<u16>,
    /// The address of a service centre that comes first.
    pub centre: Option<&'a str>,
    /// Whether each line is as a modem wants it.
    pub is_for_modem: bool,
    /// Whether a fault of the address or the digits names its place.
    pub is_explained: bool,
}
