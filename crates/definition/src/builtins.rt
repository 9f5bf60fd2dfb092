// The words of a session that has no list of its own.

// Document 01's six words, as the field that a session of three fields begins with: its head, then a name for each.
pub const SIX_WORDS: &[u8; 45] =
    b"\x42\x00\x2a\x30\x00\x03len\x30\x00\x04puts\x30\x00\x05first\x30\x00\x04last\x30\x00\x04rest\x30\x00\x04push";
