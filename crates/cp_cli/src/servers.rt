//! Which processes may wait forever.

use crate::misuse::Misuse;
use clap::ArgMatches;
use std::alloc::Global;

// There are no more processes than this.
const MAX_SERVERS: usize = 255;

/// The names that `--servers` gives, with commas between them, none of them twice, in any letter
/// case.
pub(crate) fn read_servers<'a>(
    alloc: Global,
    matches: &ArgMatches<'a>,
) -> Result<Vec<&'a str>, Misuse<'a>> {
    let mut names: Vec<&'a str> = Vec::new(alloc);
    let Some(word) = matches.get_str("servers") else {
        return Ok(names);
    };
    for name in word.split(',') {
        if name.is_empty() {
            return Err(Misuse::NoServers { word });
        }
        if names.iter().any(|other| other.eq_ignore_ascii_case(name)) {
            return Err(Misuse::ServerTwice { name });
        }
        if MAX_SERVERS <= names.len() {
            return Err(Misuse::ManyServers { most: MAX_SERVERS });
        }
        names.push(name)?;
    }
    Ok(names)
}
