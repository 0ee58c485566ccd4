//! Tests alone, of the top call over shelves in memory: texts, limits, sources that include files, prototype files, each call of the shelf that fails, and
//! the units that are handed in. (Commands with their statuses and messages, one by one, are the table of `command_rows`.)
#![tactic(auto)]

#[cfg(test)]
mod calls;
#[cfg(test)]
mod handed_units;
#[cfg(test)]
mod included_files;
#[cfg(test)]
mod prototype_words;
#[cfg(test)]
mod texts_and_messages;
