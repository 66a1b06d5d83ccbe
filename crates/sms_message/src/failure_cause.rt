//! The values of TP-FCS that the parties put out or tell apart (3GPP TS 23.040, 9.2.3.22).

/// Data coding scheme (alphabet) not supported.
pub const CODING_SCHEME_NOT_SUPPORTED: u8 = 0x90;

/// TPDU not supported.
pub const UNIT_NOT_SUPPORTED: u8 = 0xB0;

/// SC busy.
pub const SC_BUSY: u8 = 0xC0;

/// SC system failure.
pub const SC_SYSTEM_FAILURE: u8 = 0xC2;

/// Invalid SME address.
pub const INVALID_SME_ADDRESS: u8 = 0xC3;

/// SM rejected, duplicate SM.
pub const DUPLICATE_SM: u8 = 0xC5;

/// TP-VPF not supported.
pub const VPF_NOT_SUPPORTED: u8 = 0xC6;

/// TP-VP not supported.
pub const VP_NOT_SUPPORTED: u8 = 0xC7;

/// Memory capacity exceeded.
pub const MEMORY_CAPACITY_EXCEEDED: u8 = 0xD3;

/// Unspecified error cause.
pub const UNSPECIFIED: u8 = 0xFF;
