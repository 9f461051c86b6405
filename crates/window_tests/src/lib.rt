// Scenarios of pages, of windows over them and of copies between windows, on the plain and the shared forms.
#![tactic(auto)]

#[cfg(test)]
mod copying;
#[cfg(test)]
mod pages;
#[cfg(test)]
mod shared_pages;
#[cfg(test)]
mod window;
