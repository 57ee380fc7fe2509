//! Tests over many sheets: their texts, ranges, shapes and claims, and their steps and runs.

#![tactic(auto)]

// The text of a sheet with these rows in its four tables.
macro_rules! sheet_text {
    ($heap:expr, $operations:expr, $instances:expr, $types:expr, $parts:expr) => {{
        let (operations, instances, types, parts) = ($operations, $instances, $types, $parts);
        format!(
            in $heap;
            "effect op takes gives\n{operations}\ninstance effect\n{instances}\ntype kind a b d e\n{types}\npart kind a b type dirt\n{parts}\n"
        )?
    }};
}

#[cfg(test)]
mod claims;
#[cfg(test)]
mod ranges;
#[cfg(test)]
mod refusing;
#[cfg(test)]
mod shapes;
#[cfg(test)]
mod steps;
#[cfg(test)]
mod texts;
#[cfg(test)]
mod whole_runs;
