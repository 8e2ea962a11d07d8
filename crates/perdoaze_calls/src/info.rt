//! What C is told of a transform: `struct perdoaze_info`.

/// A transform, as /proc/crypto shows one.
#[repr(C)]
#[derive(Drop)]
pub struct Info {
    /// The algorithm, with zeros behind it.
    pub name: [u8; 128],
    /// The driver, with zeros behind it.
    pub driver: [u8; 128],
    /// Of two drivers of an algorithm, the one of greater priority is taken.
    pub priority: u32,
    /// 1 for a cipher without a tag, 2 for one with a tag, 3 for a MAC.
    pub kind: u32,
    pub block_size: u32,
    pub iv_size: u32,
    /// The bytes of the greatest tag, or of the MAC.
    pub max_tag_size: u32,
    pub min_key_size: u32,
    /// `u32::MAX` where there is no limit.
    pub max_key_size: u32,
    /// The bytes of the tag that is set, or of the MAC.
    pub tag_size: u32,
}
