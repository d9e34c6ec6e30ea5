//! Canonical spellings.

/// A name has one spelling, which is read as the same name.
pub(super) const SPELLINGS: &str = r"
read 100→100
order 100|100→same
read 1-00→100
order 1-00|100→same
read --s→s
order --s|s→same
read X.→X.
order X.|X.→same
read $-{x→${x
order $-{x|${x→same
read _x→_X
order _x|_X→same
read _z→_Z
order _z|_Z→same
read _n→_N
order _n|_N→same
read _[0-9]→_X
order _[0-9]|_X→same
read _[1-9]→_Z
order _[1-9]|_Z→same
read _[2-9]→_N
order _[2-9]|_N→same
read _[3-9]→_[3456789]
order _[3-9]|_[3456789]→same
read _[0-4]X→_[01234]X
order _[0-4]X|_[01234]X→same
read _[21]→_[12]
order _[21]|_[12]→same
read _[1]→_1
order _[1]|_1→same
read _[X]→_[X]
order _[X]|_[X]→same
read _[x]→_[x]
order _[x]|_[x]→same
read _[Z]→_[Z]
order _[Z]|_[Z]→same
read _[z]→_[z]
order _[z]|_[z]→same
read _[N]→_[N]
order _[N]|_[N]→same
read _[n]→_[n]
order _[n]|_[n]→same
read _[.]→_[.]
order _[.]|_[.]→same
read _[!]→_[!]
order _[!]|_[!]→same
read _[[]→_[[]
order _[[]|_[[]→same
read _]→_]
order _]|_]→same
read _[_]→__
order _[_]|__→same
read _[{$]→_[${]
order _[{$]|_[${]→same
read _[c0-2A-Ba0]→_[012ABac]
order _[c0-2A-Ba0]|_[012ABac]→same
read _1-2.-→_12.
order _1-2.-|_12.→same
read -_N!→_N!
order -_N!|_N!→same
read _.→_.
order _.|_.→same
read _!→_!
order _!|_!→same
# Bytes above 127 are spelled in order; the answer shows each as the character of its number.
read _[\xFF\x80a]\xE9→_[a\xC2\x80ÿ]é
";

/// A copy is the same name.
pub(super) const COPIES: &str = r"
copy 100→same
copy _NX.→same
copy _[a-c]!→same
";
