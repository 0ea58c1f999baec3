//! The groups of an IPv6 address.

ghost use Rattle.std.specs.Prelude.{◌≡◌, ◌+◌, ◌^◌, ◌<◌, ◌≤◌, false};
ghost use Rattle.location_acl.specs.Groups.{AreBounded, has_room, has_room_for_dotted, is_whole, with_group, with_gap, groups_value};

/// The groups that were read: those before the `::`, as one number, and how many, and those after it.
#[derive(Clone, Copy)]
pub struct Groups {
    pub front: u128,
    pub front_len: u8,
    pub has_gap: bool,
    pub back: u128,
    pub back_len: u8,
}

impl Groups {
    /// No groups.
    pub fn none() -> Groups
        ensures { result ≡ record { front = 0; front_len = 0; has_gap = false; back = 0; back_len = 0 } }
    {
        Groups {
            front: 0,
            front_len: 0,
            has_gap: false,
            back: 0,
            back_len: 0,
        }
    }

    /// Whether so many groups more may follow: there are eight, or seven beside a `::`.
    pub fn has_room(self, count: u8) -> bool
        requires few { count ≤ 8 }
        requires bounded { AreBounded self }
        ensures { result ≡ has_room count self }
    {
        let len = self.front_len + self.back_len + count;
        len <= if self.has_gap { 7 } else { 8 }
    }

    /// Whether an IPv4 address, which is two groups, may follow and end the address.
    pub fn has_room_for_dotted(self) -> bool
        requires { AreBounded self }
        ensures { result ≡ has_room_for_dotted self }
    {
        self.has_room(2) && (self.has_gap || self.front_len == 6)
    }

    /// Whether these groups are an address.
    pub fn is_whole(self) -> bool
        ensures { result ≡ is_whole self }
    {
        self.has_gap || self.front_len == 8
    }

    /// One more group.
    pub fn with_group(self, group: u16) -> Groups
        requires bounded { AreBounded self }
        requires room { self.front_len + self.back_len < 8 }
        ensures value { result ≡ with_group group self }
        ensures bounded { AreBounded result }
    {
        let group = u128::from(group);
        if self.has_gap {
            Groups {
                back: self.back * 65536 + group,
                back_len: self.back_len + 1,
                ..self
            }
        } else {
            Groups {
                front: self.front * 65536 + group,
                front_len: self.front_len + 1,
                ..self
            }
        }
    }

    /// A `::` behind the groups.
    pub fn with_gap(self) -> Groups
        requires { AreBounded self }
        ensures value { result ≡ with_gap self }
        ensures bounded { AreBounded result }
    {
        Groups {
            has_gap: true,
            ..self
        }
    }

    /// The address of these groups, with groups of zeros where the `::` stands.
    pub fn value(self) -> u128
        requires { AreBounded self }
        ensures { result ≡ groups_value self }
    {
        let mut high = self.front;
        'places: for _ in self.front_len..8 {
            high *= 65536;
        }
        high + self.back
    }
}
