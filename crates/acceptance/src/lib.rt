// Tests of the library from a caller's side: tables of what is asked and what has to come, a file a layer.
#![tactic(auto)]

#[cfg(test)]
mod months_and_hours;
#[cfg(test)]
mod price_lists;
#[cfg(test)]
mod setpoints;
#[cfg(test)]
mod standard_choice;
#[cfg(test)]
mod zones;
