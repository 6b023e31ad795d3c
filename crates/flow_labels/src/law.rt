//! The law of hosts in labels.

ghost use Rattle.std.specs.Prelude.{ℕ, List, ◌++◌, ◌<◌, ◌^◌, codes, slice_index};
ghost use Rattle.std.specs.Net.Grammar.{IsDotted};
ghost use Rattle.std.specs.Net.Text.{hex_groups_text};
ghost use Rattle.flow_labels.specs.Hosts.{IsHost};

/// The texts that std has for addresses are those of labels: an IPv4 address that it reads, and an IPv6 address as it
/// prints it, in brackets, with no zone.
pub fn law_of_hosts()
    ensures v4 { (text octets : List ℕ) → IsDotted text octets → IsHost text }
    ensures v6 { (segments : List ℕ) → ((k : ℕ) → slice_index segments k < 2 ^ 16)
        → IsHost (codes "[" ++ hex_groups_text segments ++ codes "]") }
{}
