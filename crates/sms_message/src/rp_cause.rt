//! The values of RP-Cause that the parties put out or tell apart (3GPP TS 24.011, 8.2.5.4).

/// Unassigned (unallocated) number.
pub const UNASSIGNED_NUMBER: u8 = 1;

/// Short message transfer rejected.
pub const TRANSFER_REJECTED: u8 = 21;

/// Memory capacity exceeded.
pub const MEMORY_CAPACITY_EXCEEDED: u8 = 22;

/// Network out of order.
pub const NETWORK_OUT_OF_ORDER: u8 = 38;

/// Congestion.
pub const CONGESTION: u8 = 42;

/// Invalid mandatory information.
pub const INVALID_MANDATORY_INFORMATION: u8 = 96;

/// Message type non-existent or not implemented.
pub const MESSAGE_TYPE_NON_EXISTENT: u8 = 97;

/// Protocol error, unspecified.
pub const PROTOCOL_ERROR: u8 = 111;
