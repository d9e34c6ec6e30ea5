mod applications;
mod calls;
mod joined_texts;
mod manual;
