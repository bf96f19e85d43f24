//! Who sits where in the matches of a hall.

use rbg_network::{Hosting, MatchNews, Network, News};

/// Who sits where in the match at an index, if that is known. The names of two matches have a semicolon between them, those
/// of one match a comma. Of a match without a name nothing is known.
pub(crate) fn names_in(names: Option<&str>, index: usize) -> Option<&str> {
    for (place, one) in names?.split(';').enumerate() {
        if place == index && !one.is_empty() {
            return Some(one);
        }
    }
    None
}

/// Tells who sits where in the match of a number, if that is known.
pub(crate) fn tell_match_names<N: Network>(
    network: &mut N,
    hosting: Hosting,
    number: u64,
    names: Option<&str>,
) {
    let Some(names) = names else {
        return;
    };
    for (index, name) in names.split(',').enumerate() {
        let seat = index.saturating_add(1);
        let news = MatchNews::Sits { seat, name };
        hosting.tell(network, &News::OfMatch { number, news });
    }
}
